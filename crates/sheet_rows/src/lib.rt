// The row of a station. A kind stays its number (kinds.rt). Vertices, faces and order list stay lists: that they are a body is asked for kind 1 alone, and a `Mesh` would ask
// it of a prism's too.
#![tactic(auto)]

pub mod kinds;

ghost use Rattle.std.specs.Prelude.{◌≡◌, true, ℕ, ◌+◌, ◌≤◌, ◌<◌, length, get_or};
ghost use Rattle.mesh_orders.specs.Order.{order_list};
ghost use Rattle.mesh.specs.Surface.{Body, vertex};
ghost use Rattle.polyhedron_blocks.specs.Blocks.{no_vector};
ghost use Rattle.polyhedron_fields.specs.BlockFields.{no_field};
ghost use Rattle.prism.specs.Prism.{prism_at};
ghost use Rattle.sheet_rows.specs.Kinds.{is_mesh, axis_rule};
ghost use Rattle.sheet_rows.specs.Row.{row_from, in_row, row_numbers, all_finite, is_finite_row, row_cause};
ghost use Rattle.sheet_rows.specs.StationFields.{StationFields};
ghost use Rattle.sheet_rows.specs.BodyWithCenter.{center_of, BodyWithCenter};

use crate::kinds::PLAIN_WIDTH;
use mesh::surface::Mesh;
use newtonian::{Newtonian, Vector};
use polyhedron_blocks::STATIONS;
pub use polyhedron_centroid::Center;
use polyhedron_centroid::OrderedMesh;
use polyhedron_fields::stations::StationRange;
use prism_corner_sums::Bounds;
use refusals::Refusal;

// The field, what the magnetisation adds to the ambient field, and the total field's anomaly.
#[derive(Clone, Copy)]
pub struct Row {
    pub field: Newtonian,
    pub anomaly: Vector,
    pub total: f64,
}

// Taken once for all stations. A prism has none, and gets zeros.
pub fn center_of(kind: u32, verts: &[f64], faces: &[u32], order: &[u32]) -> Center
    requires { is_mesh kind ≡ true → Body verts.now faces.now × (order.now ≡ order_list faces.now) }
    ensures { result ≡ center_of kind verts.now faces.now }
{
    if kinds::is_mesh(kind) {
        let ordered = OrderedMesh {
            verts,
            faces,
            order,
        };
        return Center::of(ordered);
    }
    Center {
        centroid: Vector {
            x: 0.0,
            y: 0.0,
            z: 0.0,
        },
        radius: 0.0,
    }
}

// The fields of a prism at a block of stations.
fn prism_fields(
    kind: u32,
    stations: &StationRange,
    verts: &[f64],
) -> [Result<Newtonian, Refusal>; STATIONS]
    requires { 6 ≤ length verts.now }
    ensures { let s = stations.now in (j : ℕ) → j < s.n → (get_or result j no_field) ≡
        prism_at (axis_rule kind) (s.first + j) (get_or s.places j no_vector) (vertex verts.now 0) (vertex verts.now 1) }
{
    let bounds = Bounds {
        lo: mesh::surface::vertex(verts, 0),
        hi: mesh::surface::vertex(verts, 1),
    };
    let rule = kinds::axis_rule(kind);
    let mut out = polyhedron_fields::no_fields();
    for (j, answer) in out[..stations.n].iter_mut().enumerate() {
        *answer = prism::prism_at(rule, stations.number(j), stations.places[j], bounds);
    }
    out
}

// The fields at a block of stations.
pub fn fields_at(
    kind: u32,
    stations: &StationRange,
    c: Center,
    verts: &[f64],
    faces: &[u32],
) -> [Result<Newtonian, Refusal>; STATIONS]
    requires { BodyWithCenter kind c verts.now faces.now }
    ensures { let s = stations.now in StationFields kind s.first s.n s.places verts.now faces.now result }
{
    if kinds::is_mesh(kind) {
        return polyhedron_fields::fields_of(stations, c, Mesh { verts, faces });
    }
    prism_fields(kind, stations, verts)
}

fn row_from(kind: u32, magnetisation: Vector, ambient: Vector, field: Newtonian) -> Row
    ensures { result ≡ row_from kind magnetisation ambient field }
{
    let hessian = field.hessian;
    let anomaly = anomaly::body_of(kinds::magnetic_constant(kind), hessian, magnetisation);
    Row {
        field,
        anomaly,
        total: anomaly::total_field_of(ambient, anomaly),
    }
}

// The row of a field, or the field's refusal.
pub fn row_of(
    kind: u32,
    magnetisation: Vector,
    ambient: Vector,
    field: Result<Newtonian, Refusal>,
) -> Result<Row, Refusal>
    ensures { result ≡ in_row kind magnetisation ambient field }
{
    Ok(row_from(kind, magnetisation, ambient, field?))
}

// The numbers that the sheet holds of a row.
#[tactic(auto, unfolding(crate::specs::Row::row_numbers))]
pub fn row_numbers(kind: u32, row: Row) -> [f64; PLAIN_WIDTH]
    ensures { result ≡ row_numbers kind row }
{
    let g = row.field.gradient;
    let b = row.anomaly;
    [row.field.potential, g.x, g.y, g.z, b.x, b.y, b.z, row.total]
}

fn all_finite(numbers: &[f64]) -> bool
    ensures { result ≡ all_finite numbers.now }
{
    numbers.iter().all(|x| doubles::is_finite(*x))
}

pub fn is_finite_row(kind: u32, row: Row) -> bool
    ensures { result ≡ is_finite_row kind row }
{
    let numbers = row_numbers(kind, row);
    all_finite(&numbers)
}

// 10 or 11, then 13, of station i.
#[tactic(auto, unfolding(crate::specs::Row::row_cause))]
pub fn row_cause(kind: u32, i: u32, a: Result<Row, Refusal>) -> Result<(), Refusal>
    ensures { result ≡ row_cause kind i a }
{
    if is_finite_row(kind, a?) {
        return Ok(());
    }
    Err(Refusal::NotFinite(i))
}

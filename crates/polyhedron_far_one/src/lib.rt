// The far field of a body at one station: the points of each face's tetrahedron, and their field. Station, apex and mesh stay arguments, those of the definition
// `tetrahedra`: a struct of them would be made for one call.
#![tactic(auto)]

ghost use Rattle.std.specs.Prelude.{◌≡◌, ◌<◌};
ghost use Rattle.newtonian.specs.Fold.{Fold};
ghost use Rattle.mesh.specs.Surface.{face_count};
ghost use Rattle.polyhedron_neumaier.specs.Neumaier.{no_sums};
ghost use Rattle.polyhedron_tetrahedra.specs.Tetrahedra.{add_tetrahedron, tetrahedra};

use mesh::surface::Mesh;
use newtonian::{Newtonian, Vector};
use polyhedron_far_points::Points;
use polyhedron_neumaier::Sums;
use polyhedron_tetrahedra::MappedRule;

// Adds the tetrahedron over face k to the sums; points is room for its points. The bound on k is the number's own (polyhedron_edge_face_sums, `triangle_of`).
fn add_tetrahedron(
    p: Vector,
    apex: Vector,
    mesh: Mesh,
    k: usize,
    rule: &MappedRule,
    points: &mut Points,
    sums: &mut Sums,
)
    requires { k < face_count mesh.faces.now }
    ensures { sums.new.pairs ≡ add_tetrahedron p apex mesh.entry.verts.now mesh.entry.faces.now k sums.old.pairs }
{
    let b = mesh.corner(k, 0);
    let c = mesh.corner(k, 1);
    let d = mesh.corner(k, 2);
    let s = polyhedron_tetrahedra::over_face(apex, b, c, d);
    points.fill(apex, s, rule);
    let f = points.field(p);
    sums.add(&f.into());
}

// The sums over all faces, by their numbers, which the definition and the mesh's methods take; the rule and the room for points are made once.
fn face_sums(p: Vector, apex: Vector, mesh: Mesh) -> Sums
    ensures { let f = mesh.entry.faces.now in
        result.pairs ≡ Fold (face_count f) (add_tetrahedron p apex mesh.entry.verts.now f) no_sums }
{
    let rule = MappedRule::new();
    let mut points = Points::new();
    let mut sums = Sums::new();
    for k in 0..mesh.face_count() {
        add_tetrahedron(p, apex, mesh, k, &rule, &mut points, &mut sums);
    }
    sums
}

// The field of a body at p, with the tetrahedra's apex.
#[tactic(auto, unfolding(polyhedron_tetrahedra::specs::Tetrahedra::tetrahedra))]
pub fn tetrahedra(p: Vector, apex: Vector, mesh: Mesh) -> Newtonian
    ensures { result ≡ tetrahedra p apex mesh.entry.verts.now mesh.entry.faces.now }
{
    face_sums(p, apex, mesh).total()
}

// The kinds of a sheet, what each decides, and the limits on a sheet's counts. A kind stays the number that C's callers pass and a sheet's bytes hold, also past refusal 1:
// the definitions and the theorem that what is accepted is right take any number, so that an enum would put a conversion into each contract and save no test. What is one
// for both kinds takes the kind all the same, since by the definitions a kind decides it. The counts stay numbers side by side: `Sheet::open` has them from a trailer, as
// u32 with other fields, sheet_readers' `sheet_length` from C as they are, and writer_causes' `lengths_cause` and writer's `write_counted` from the lengths of lists. A struct
// would be made anew in each of the four, for two tests and the sheet's length, in the last for the length alone.
ghost use Rattle.std.specs.Prelude.{◌≡◌, ◌*◌};
ghost use Rattle.sheet_rows.specs.Kinds.{is_mesh, is_prism, known_kind, row_width, axis_rule, magnetic_constant, within_counts};

use mesh_orders::edges::{MAX_FACES, MAX_STATIONS, MAX_VERTICES};
use prism_pieces::AxisRule;

const MESH_KIND: u32 = 1;

const PRISM_KIND: u32 = 2;

// The numbers of a row, and their bytes.
pub const PLAIN_WIDTH: usize = 8;

pub const PLAIN_BYTES: usize = 8 * PLAIN_WIDTH;

#[tactic(auto, unfolding(crate::specs::Kinds::is_mesh))]
pub fn is_mesh(kind: u32) -> bool
    ensures { result ≡ is_mesh kind }
{
    kind == MESH_KIND
}

#[tactic(auto, unfolding(crate::specs::Kinds::is_prism))]
pub fn is_prism(kind: u32) -> bool
    ensures { result ≡ is_prism kind }
{
    kind == PRISM_KIND
}

// A mesh; or a prism, with two vertices and no faces.
#[tactic(auto, unfolding(crate::specs::Kinds::known_kind))]
pub fn known_kind(kind: u32, vertices: usize, faces: usize) -> bool
    ensures { result ≡ known_kind kind vertices faces }
{
    is_mesh(kind) || (is_prism(kind) && vertices == 2 && faces == 0)
}

// The bytes of a row.
pub fn row_length(kind: u32) -> usize
    ensures { result ≡ 8 * row_width kind }
{
    PLAIN_BYTES
}

// Of equal longest sides, the one that a prism is halved across: the last, as in printed sheets of kind 2; `prism` itself takes the first.
#[tactic(auto, unfolding(crate::specs::Kinds::axis_rule))]
pub fn axis_rule(kind: u32) -> AxisRule
    ensures { result ≡ axis_rule kind }
{
    AxisRule::LastOfEquals
}

#[tactic(auto, unfolding(crate::specs::Kinds::magnetic_constant))]
pub fn magnetic_constant(kind: u32) -> f64
    ensures { result ≡ magnetic_constant kind }
{
    anomaly::C_M
}

#[tactic(auto, unfolding(crate::specs::Kinds::within_counts))]
pub fn within_counts(vertices: usize, faces: usize, stations: usize) -> bool
    ensures { result ≡ within_counts vertices faces stations }
{
    vertices <= MAX_VERTICES && faces <= MAX_FACES && stations <= MAX_STATIONS
}

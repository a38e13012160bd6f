// What `write_sheet` asks of a body whose counts are within the limits: the causes of refusal 4, and 5 to 8 of a mesh or 9 of a prism.
#![tactic(auto)]

ghost use Rattle.std.specs.Prelude.{◌≡◌, false, List, Float, ◌*◌, ◌≤◌, length};
ghost use Rattle.refusals.specs.Causes.{unless};
ghost use Rattle.refusals.specs.declared.Refusal.TheVariants.{TooThin};
ghost use Rattle.newtonian.specs.declared.Vector.{Vector};
ghost use Rattle.prism.specs.Prism.{sides_within_limits, prism_volume};
ghost use Rattle.mesh.specs.Surface.{vertex};
ghost use Rattle.mesh.specs.Check.{solid_of};
ghost use Rattle.mesh.specs.Accepted.{Counted};
ghost use Rattle.sheet_rows.specs.Kinds.{is_mesh};
ghost use Rattle.sheet.specs.Input.{input_of, source_input};
ghost use Rattle.sheet_body.specs.BodyChecked.{BodyChecked};

use prism_corner_sums::Bounds;
use refusals::Refusal;
use sheet::Source;

// Cause 9 of a prism, or else its volume.
pub fn check_prism(verts: &[f64]) -> Result<f64, Refusal>
    requires { 6 ≤ length verts.now }
    ensures { result ≡ solid_of (unless (sides_within_limits (vertex verts.now 0) (vertex verts.now 1)) TooThin) (prism_volume (vertex verts.now 0) (vertex verts.now 1)) }
{
    let bounds = Bounds {
        lo: mesh::surface::vertex(verts, 0),
        hi: mesh::surface::vertex(verts, 1),
    };
    if prism::sides_within_limits(bounds) {
        return Ok(prism::volume(bounds));
    }
    Err(Refusal::TooThin)
}

// The volume, or the cause of refusal; work holds the order list afterwards, but after 4 and 9, and the bytes of mates, four to each edge use, the mates where nothing is refused.
// Fields and stations play no part.
pub fn check_body(source: &Source, work: &mut [u32], mates: &mut [u8]) -> Result<f64, Refusal>
    requires { let s = source_input source.now in
        Counted s.vertices s.faces (length work.old) × (is_mesh s.kind ≡ false → (length s.vertices ≡ 6) × (length s.faces ≡ 0)) × (length mates.old ≡ 4 * length s.faces) }
    ensures { let s = source_input source.now in
        (m b : Vector) (st : List Float) → BodyChecked (input_of s.kind s.vertices s.faces m b st) work.old mates.old result work.new mates.new }
{
    if sheet_rows::kinds::is_mesh(source.kind) {
        return mesh_check::check_surface_with_mates(source.verts, source.faces, work, mates);
    }
    check_prism(source.verts)
}

// The checker's stage after the lists: the causes 7 and 8 of a mesh or 9 of a prism, and 19.
#![tactic(auto)]

ghost use Rattle.std.specs.Prelude.{◌≡◌};
ghost use Rattle.mesh.specs.Check.{solid_of};
ghost use Rattle.sheet.specs.Bytes.{volume};
ghost use Rattle.sheet.specs.Checker.{parse, solid_cause};
ghost use Rattle.checker_lists.specs.Stages.{volume_cause};

use checker_lists::body::SheetBody;
use refusals::Refusal;

// The causes 7 and 8, or 9, or else the volume.
fn check_solid(body: SheetBody) -> Result<f64, Refusal>
    ensures { let s = parse body.entry.sheet.bytes.now in result ≡ solid_of (solid_cause s) (volume s) }
{
    if sheet_rows::kinds::is_mesh(body.sheet.trailer.kind) {
        return body.mesh.check_faces();
    }
    sheet_body::check_prism(body.mesh.verts)
}

// The causes 7 and 8, or 9, then 19.
pub fn volume_cause(body: SheetBody) -> Result<(), Refusal>
    ensures { result ≡ volume_cause body.entry.sheet.bytes.now }
{
    let computed = check_solid(body)?;
    if sheet_readers::volume_bits(body.sheet.bytes) != doubles::to_bits(computed) {
        return Err(Refusal::WrongVolume);
    }
    Ok(())
}

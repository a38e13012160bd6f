// A sheet's body, of which none of the causes up to 18 holds.
ghost use Rattle.std.specs.Prelude.{◌≡◌, false, ◌≤◌, length};
ghost use Rattle.sheet_rows.specs.Kinds.{is_mesh};
ghost use Rattle.sheet.specs.Checker.{kind_in, parse};

use mesh::surface::Mesh;
use sheet_readers::Sheet;

// The lists that were read from the sheet; a prism has its two corners and no face.
#[derive(Clone, Copy)]
pub struct SheetBody<'a> {
    pub sheet: Sheet<'a>,
    pub mesh: Mesh<'a>,
    pub ghost vertices: { mesh.verts.now ≡ (parse sheet.bytes.now).vertices },
    pub ghost faces: { mesh.faces.now ≡ (parse sheet.bytes.now).faces },
    pub ghost corners: { is_mesh (kind_in sheet.bytes.now) ≡ false → 6 ≤ length mesh.verts.now },
}

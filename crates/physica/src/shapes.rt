// Shape models as Wavefront OBJ text, read and written.
ghost use Rattle.std.specs.Prelude.{◌≡◌, length};
ghost use Rattle.obj.specs.Reader.{read_obj, reader_cause, vertices_of, faces_of, list_after};
ghost use Rattle.obj.specs.Writer.{write_obj, text_after};
ghost use Rattle.physica_lent.specs.Exported.{itself, count_numbers, GivesValues};

use physica_lent::give::give_values;

// The mesh of a text: counts are V and F, and the lists begin with 3V coordinates and 3F vertex numbers: 21 or 22 by the first bad line, 2, 12, 3, 4.
#[unsafe(no_mangle)]
pub extern "C" fn physica_read_obj(
    text: &[u8],
    verts: &mut [f64],
    faces: &mut [u32],
    counts: &mut [u32; 2],
    values: &mut [u32; 2],
) -> u32
    ensures answer { GivesValues count_numbers (read_obj text.now (length verts.old) (length faces.old)) result counts.old counts.new values.new }
    ensures verts { verts.new ≡ list_after (reader_cause text.now (length verts.old) (length faces.old)) (vertices_of text.now) verts.old }
    ensures faces { faces.new ≡ list_after (reader_cause text.now (length verts.old) (length faces.old)) (faces_of text.now) faces.old }
{
    give_values(obj_reader::read_obj(text, verts, faces), counts, values)
}

// The text of a mesh of whole coordinates into the front of text; size is its length: 1, 2, 3, 4, 12.
#[unsafe(no_mangle)]
pub extern "C" fn physica_write_obj(
    verts: &[f64],
    faces: &[u32],
    text: &mut [u8],
    size: &mut usize,
    values: &mut [u32; 2],
) -> u32
    ensures answer { GivesValues itself (write_obj verts.now faces.now (length text.old)) result size.old size.new values.new }
    ensures text { text.new ≡ text_after verts.now faces.now text.old }
{
    give_values(obj_writer::write_obj(verts, faces, text), size, values)
}

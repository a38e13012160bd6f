// Lines of three numbers each: how many bytes they take, and writing them.
ghost use Rattle.std.specs.Prelude.{◌≡◌, true, List, ℕ, [], ◌∷◌, ◌++◌, ◌+◌, ◌<◌, ◌≤◌, length};
ghost use Rattle.std.specs.List.{All};
ghost use Rattle.obj.specs.Text.{newline};
ghost use Rattle.obj.specs.Whole.{is_whole};
ghost use Rattle.obj.specs.Writer.{numeral, coordinate, max_coordinate};
ghost use Rattle.obj_numerals.specs.Put.{Put, HasRoom};
ghost use Rattle.obj_numerals.proofs.Numerals.{coordinate_short, corner_short};
ghost use Rattle.obj_writer.specs.Lines.{line_text, lines_text, Given};

use obj_numerals::cursor::Cursor;
use obj_numerals::{coordinate_size, numeral_size};

// A number that stands in a line: a coordinate of a vertex's, a vertex number of a face's.
pub trait Field: Copy {
    // What it is where none of the causes 1 to 4 holds.
    ghost IsGiven: { Self → Type 0 };

    ghost text: { Self → List ℕ };

    // How many bytes its text has.
    fn size(self) -> usize
        requires { IsGiven self }
        ensures { result ≡ length (text self) };

    // Writes it.
    fn put(self, cursor: &mut Cursor)
        requires given { IsGiven self }
        requires room { HasRoom cursor.old (text self) }
        ensures { Put cursor.old cursor.new (text self) };

    // So the length of all lines fits.
    ghost short: { (x : Self) → length (text x) ≤ 11 };
}

impl Field for f64 {
    ghost IsGiven = { λ x. is_whole max_coordinate x ≡ true };

    ghost text = { coordinate };

    ghost short = { coordinate_short };

    fn size(self) -> usize {
        coordinate_size(self)
    }

    fn put(self, cursor: &mut Cursor) {
        cursor.put_coordinate(self);
    }
}

// In the text vertices count from 1.
impl Field for u32 {
    ghost IsGiven = { λ v. v < max_coordinate };

    ghost text = { λ v. numeral (v + 1) };

    ghost short = { corner_short };

    fn size(self) -> usize {
        numeral_size(u64::from(self) + 1)
    }

    fn put(self, cursor: &mut Cursor) {
        cursor.put_numeral(u64::from(self) + 1);
    }
}

// How many bytes the lines have, three numbers to a line: a space before each number, a letter and a newline.
pub fn lines_size<T: Field>(numbers: &[T]) -> usize
    requires { Given T.IsGiven numbers.now }
    ensures { (letter : ℕ) → result ≡ length (lines_text letter T.text numbers.now) }
{
    let sizes = numbers.iter().map(|number| 1 + number.size());
    sizes.sum::<usize>() + 2 * (numbers.len() / 3)
}

// Writes a line: the letter, the numbers with a space before each, and a newline.
#[tactic(auto, using(crate::proofs::Fields::newline_room, crate::proofs::Fields::field_room))]
fn put_line<T: Field>(letter: u8, numbers: &[T], cursor: &mut Cursor)
    requires given { All T.IsGiven numbers.now }
    requires room { HasRoom cursor.old (line_text letter T.text numbers.now ++ newline ∷ []) }
    ensures { Put cursor.old cursor.new (line_text letter T.text numbers.now ++ newline ∷ []) }
{
    cursor.put(letter);
    for number in numbers {
        cursor.put(b' ');
        number.put(cursor);
    }
    cursor.put(b'\n');
}

// Writes the lines, each with this letter.
#[tactic(auto, using(obj_numerals::proofs::Puts::put_none), unfolding(obj::specs::Writer::written))]
pub fn put_lines<T: Field>(letter: u8, numbers: &[T], cursor: &mut Cursor)
    requires given { All T.IsGiven numbers.now }
    requires room { HasRoom cursor.old (lines_text letter T.text numbers.now) }
    ensures { Put cursor.old cursor.new (lines_text letter T.text numbers.now) }
{
    for line in numbers.chunks_exact(3) {
        put_line(letter, line, cursor);
    }
}

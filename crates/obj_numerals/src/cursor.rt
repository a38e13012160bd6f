// Writes bytes and numbers into a text, one after the other.
ghost use Rattle.std.specs.Prelude.{◌≡◌, ◌+◌, ◌≤◌, true, [], ◌∷◌, length};
ghost use Rattle.obj.specs.Whole.{is_whole};
ghost use Rattle.obj.specs.Writer.{numeral, coordinate, max_coordinate};
ghost use Rattle.obj_numerals.specs.Digits.{digits};
ghost use Rattle.obj_numerals.specs.Put.{Put, HasRoom};

use crate::{magnitude, numeral_size};
use doubles::is_sign_negative;

// The text, and the place after what is written so far.
#[derive(Drop)]
pub struct Cursor<'a> {
    pub text: &'a mut [u8],
    pub at: usize,
}

impl Cursor<'_> {
    // Writes a byte.
    pub fn put(&mut self, byte: u8)
        requires { HasRoom self.old (byte ∷ []) }
        ensures { Put self.old self.new (byte ∷ []) }
    {
        self.text[self.at] = byte;
        self.at += 1;
    }

    // Writes the last size digits of n. The last one is known first.
    #[tactic(auto, using(crate::proofs::Numerals::digit_turn, crate::proofs::Numerals::digits_length))]
    fn put_digits(&mut self, size: usize, n: u64)
        requires { self.old.at + size ≤ length self.old.text.now }
        ensures { Put self.old self.new (digits size n) }
    {
        let end = self.at + size;
        let mut rest = n;
        for i in (self.at..end).rev() {
            self.text[i] = b'0' + (rest % 10) as u8;
            rest /= 10;
        }
        self.at = end;
    }

    // Writes n.
    #[tactic(auto, using(crate::proofs::Numerals::numeral_digits))]
    pub fn put_numeral(&mut self, n: u64)
        requires small { n ≤ max_coordinate }
        requires room { HasRoom self.old (numeral n) }
        ensures { Put self.old self.new (numeral n) }
    {
        self.put_digits(numeral_size(n), n);
    }

    // Writes x. The sign bit decides, so that −0 is -0.
    #[tactic(auto, using(crate::proofs::Puts::put_then, crate::proofs::Puts::signed_coordinate, crate::proofs::Puts::unsigned_coordinate))]
    pub fn put_coordinate(&mut self, x: f64)
        requires whole { is_whole max_coordinate x ≡ true }
        requires room { HasRoom self.old (coordinate x) }
        ensures { Put self.old self.new (coordinate x) }
    {
        if is_sign_negative(x) {
            self.put(b'-');
        }
        self.put_numeral(magnitude(x));
    }
}

// Numbers in lent bytes, lowest byte first: u32, u64 and f64, one at a time and in runs.
#![tactic(auto)]

ghost use Rattle.std.specs.Prelude.{◌≡◌, ℕ, ◌+◌, ◌*◌, ◌^◌, ◌≤◌, ◌<◌, map, length, replicate, refl, T};
ghost use Rattle.std.proofs.lemmas.List.Edits.{sets};
ghost use Rattle.std.specs.Float.{binary64};
ghost use Rattle.std.specs.Float.Ieee.{fits, to_bits, of_bits};
ghost use Rattle.sheet_layout.specs.LittleEndian.{bytes, number, pack, unpack, bits, doubles};
ghost use Rattle.sheet_layout.specs.Doubles.{double_back};

use doubles::{of_bits, to_bits};

// A number that stands in bytes, lowest byte first.
pub trait Stored: Copy {
    // In how many bytes it stands, as which number, and what it is of a number.
    ghost SIZE: { ℕ };

    ghost as_number: { Self → ℕ };

    ghost of_number: { ℕ → Self };

    // What a value has to be so that it is read as it was written.
    ghost IsWhole: { Self → Type 0 };

    const SIZE: usize;

    // The number at place i.
    fn at(s: &[u8], i: usize) -> Self
        requires { i + SIZE ≤ length s.now }
        ensures { result ≡ of_number (number SIZE s.now i) };

    // Writes the number at place i.
    fn put(self, s: &mut [u8], i: usize)
        requires { i + SIZE ≤ length s.old }
        ensures { s.new ≡ sets s.old i (bytes SIZE (as_number self)) };

    // Its number fits its bytes, and gives it back.
    ghost read_back: { (x : Self) → IsWhole x → (as_number x < 256 ^ SIZE) × (of_number (as_number x) ≡ x) };
}

impl Stored for u32 {
    ghost SIZE = { 4 };

    ghost as_number = { λ x. x };

    ghost of_number = { λ n. n };

    ghost IsWhole = { λ x. x < 256 ^ 4 };

    ghost read_back = { λ x h. (h, refl) };

    const SIZE: usize = 4;

    #[tactic(auto, using(crate::proofs::Numbers::from_four))]
    fn at(s: &[u8], i: usize) -> u32 {
        u32::from_le_bytes([s[i], s[i + 1], s[i + 2], s[i + 3]])
    }

    fn put(self, s: &mut [u8], i: usize) {
        let b = self.to_le_bytes();
        s[i] = b[0];
        s[i + 1] = b[1];
        s[i + 2] = b[2];
        s[i + 3] = b[3];
    }
}

impl Stored for u64 {
    ghost SIZE = { 8 };

    ghost as_number = { λ x. x };

    ghost of_number = { λ n. n };

    ghost IsWhole = { λ x. x < 256 ^ 8 };

    ghost read_back = { λ x h. (h, refl) };

    const SIZE: usize = 8;

    #[tactic(auto, using(crate::proofs::Numbers::number_eight))]
    fn at(s: &[u8], i: usize) -> u64 {
        u64::from(u32::at(s, i)) + 0x1_0000_0000 * u64::from(u32::at(s, i + 4))
    }

    fn put(self, s: &mut [u8], i: usize) {
        ((self % 0x1_0000_0000) as u32).put(s, i);
        ((self / 0x1_0000_0000) as u32).put(s, i + 4);
    }
}

impl Stored for f64 {
    ghost SIZE = { 8 };

    ghost as_number = { to_bits binary64 };

    ghost of_number = { of_bits binary64 };

    ghost IsWhole = { λ x. T (fits binary64 x) };

    ghost read_back = { double_back };

    const SIZE: usize = 8;

    fn at(s: &[u8], i: usize) -> f64 {
        of_bits(u64::at(s, i))
    }

    fn put(self, s: &mut [u8], i: usize) {
        to_bits(self).put(s, i);
    }
}

// Reads as many numbers as xs holds, from place at on.
#[tactic(auto, unfolding(crate::specs::LittleEndian::unpack))]
pub fn read_all<T: Stored>(s: &[u8], at: usize, xs: &mut [T])
    requires { at + T.SIZE * length xs.old ≤ length s.now }
    ensures { xs.new ≡ map T.of_number (unpack T.SIZE (length xs.old) s.now at) }
{
    for (i, x) in xs.iter_mut().enumerate() {
        *x = T::at(s, at + T::SIZE * i);
    }
}

// Writes the numbers xs from place at on.
#[tactic(auto, unfolding(crate::specs::LittleEndian::pack))]
pub fn put_all<T: Stored>(s: &mut [u8], at: usize, xs: &[T])
    requires { at + T.SIZE * length xs.now ≤ length s.old }
    ensures { s.new ≡ sets s.old at (pack T.SIZE (map T.as_number xs.now)) }
{
    for (i, x) in xs.iter().enumerate() {
        x.put(s, at + T::SIZE * i);
    }
}

// ---- By type: one call each of the trait, or of `read_all` or `put_all`, and zeros. These stay for their contracts: `number 4 s i` and `pack 4 xs`, where the trait's and the
// generics' say `of_number (number SIZE s i)` and `pack SIZE (map as_number xs)`, which each caller's proof would have to open. Bytes, place and numbers stay side by side: `sets s i ..` says in one equation what becomes of
// all bytes, and a cursor or a subslice would say it of a part.

// The u32 at place i.
pub fn u32_at(s: &[u8], i: usize) -> u32
    requires { i + 4 ≤ length s.now }
    ensures { result ≡ number 4 s.now i }
{
    u32::at(s, i)
}

// The u64 at place i.
pub fn u64_at(s: &[u8], i: usize) -> u64
    requires { i + 8 ≤ length s.now }
    ensures { result ≡ number 8 s.now i }
{
    u64::at(s, i)
}

// The double at place i.
pub fn f64_at(s: &[u8], i: usize) -> f64
    requires { i + 8 ≤ length s.now }
    ensures { result ≡ of_bits binary64 (number 8 s.now i) }
{
    f64::at(s, i)
}

// Writes x at place i.
pub fn put_u32(s: &mut [u8], i: usize, x: u32)
    requires { i + 4 ≤ length s.old }
    ensures { s.new ≡ sets s.old i (bytes 4 x) }
{
    x.put(s, i);
}

// Writes x at place i.
pub fn put_u64(s: &mut [u8], i: usize, x: u64)
    requires { i + 8 ≤ length s.old }
    ensures { s.new ≡ sets s.old i (bytes 8 x) }
{
    x.put(s, i);
}

// Writes x at place i.
pub fn put_f64(s: &mut [u8], i: usize, x: f64)
    requires { i + 8 ≤ length s.old }
    ensures { s.new ≡ sets s.old i (bytes 8 (to_bits binary64 x)) }
{
    x.put(s, i);
}

// Writes the numbers xs from place at on.
pub fn put_u32s(s: &mut [u8], at: usize, xs: &[u32])
    requires { at + 4 * length xs.now ≤ length s.old }
    ensures { s.new ≡ sets s.old at (pack 4 xs.now) }
{
    put_all(s, at, xs);
}

// Writes the doubles xs from place at on.
pub fn put_f64s(s: &mut [u8], at: usize, xs: &[f64])
    requires { at + 8 * length xs.now ≤ length s.old }
    ensures { s.new ≡ sets s.old at (pack 8 (bits xs.now)) }
{
    put_all(s, at, xs);
}

// Writes n zeros from the front.
pub fn put_zeros(s: &mut [u8], n: usize)
    requires { n ≤ length s.old }
    ensures { s.new ≡ sets s.old 0 (replicate n 0) }
{
    s[..n].fill(0);
}

// Reads as many u32 as xs holds, from place at on.
pub fn read_u32s(s: &[u8], at: usize, xs: &mut [u32])
    requires { at + 4 * length xs.old ≤ length s.now }
    ensures { xs.new ≡ unpack 4 (length xs.old) s.now at }
{
    read_all(s, at, xs);
}

// Reads as many doubles as xs holds, from place at on.
pub fn read_f64s(s: &[u8], at: usize, xs: &mut [f64])
    requires { at + 8 * length xs.old ≤ length s.now }
    ensures { xs.new ≡ doubles (unpack 8 (length xs.old) s.now at) }
{
    read_all(s, at, xs);
}

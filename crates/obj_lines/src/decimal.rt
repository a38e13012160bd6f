// A number or an index as it is read.
ghost use Rattle.std.specs.Prelude.{◌<◌, ◌≤◌, ◌^◌};

// The digits as a whole number, modulo 2^64, how many they are, and how many of them stand after the point.
#[derive(Clone, Copy)]
pub struct Decimal {
    pub negative: bool,
    pub whole: u64,
    pub digits: usize,
    pub places: usize,
    // a digit stands before the point
    pub ghost inside: { places < digits },
    // 15 digits, which 53 bits hold
    pub ghost small: { digits ≤ 15 → whole < 10 ^ 15 },
}

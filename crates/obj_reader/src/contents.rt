// What a text has: V, F, whether every coordinate is within the limits of refusal 3, and the largest vertex number of a face, counted from 0 (0 where there is
// no face).
#[derive(Clone, Copy)]
pub struct Contents {
    pub vertices: usize,
    pub faces: usize,
    pub within: bool,
    pub largest: u64,
}

// The public calls for C, Rust and other languages. Each returns 0, or a refusal's number, but for those that return a
// count, a length or the version; numbers go out through lent arrays, which a refusal leaves as they were.
// include/physica.h is the same for C.
#![tactic(auto)]

mod bodies;
mod magnetics;
mod numbers;
mod shapes;
mod sheets;
mod version;

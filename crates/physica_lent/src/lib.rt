// Between numbers that a caller in C lends and the calls' own types.
#![tactic(auto)]

pub mod give;
pub mod numbers;
pub mod take;

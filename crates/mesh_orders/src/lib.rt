// Edge uses, the order list and the mates. The lists are lent as slices and come to meet their conditions one after another, so each function asks for those that it needs; a face list
// and its order list are an `OrderedFaces`.
#![tactic(auto)]

pub mod edges;
pub mod mates;
pub mod order;

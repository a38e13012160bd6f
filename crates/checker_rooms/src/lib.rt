// The checker after the opening: room for the body's size in `rooms`; the lists, the body and the stations in `stages`.
#![tactic(auto)]

pub mod rooms;
mod stages;

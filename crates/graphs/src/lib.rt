// Tanner graphs: what every graph tells, how large one may be, cyclic graphs, and graphs turned round.
#![tactic(auto)]

pub mod cyclic;
pub mod families;
pub mod graph;
pub mod limits;
pub mod turned;

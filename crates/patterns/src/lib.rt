// Sets of numbered items as bits in bytes.
#![tactic(auto)]

pub mod hex;
pub mod items;
pub mod shapes;
pub mod weights;

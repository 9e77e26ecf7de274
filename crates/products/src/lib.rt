// Product codes.
#![tactic(auto)]

mod blocks;
mod pairs;
pub mod product;
mod sides;
mod steps;

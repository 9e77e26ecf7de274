// Matrices of bits, and the lists of what each of their rows and columns holds.
#![tactic(auto)]

pub mod families;
pub mod lists;
pub mod relation;
pub mod rows;
pub mod sparse;

// Job files: which side of which product is decoded, its syndrome and its erasure.
#![tactic(auto)]

pub mod faults;
pub mod parts;
pub mod reading;

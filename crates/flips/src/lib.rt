// The set that a flip of a generator changes.
#![tactic(auto)]

mod best;
pub mod finding;
pub mod flip;
mod gathering;
mod marks;
mod opened;
mod opening;

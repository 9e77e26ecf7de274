// Jobs, and the moves that are made on them.
#![tactic(auto)]

mod asking;
mod changes;
pub mod flip;
pub mod job;
pub mod opening;
pub mod peel;
pub mod prune;

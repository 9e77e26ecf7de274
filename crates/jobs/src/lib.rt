// Runs of a job until no move applies, and verdicts.
#![tactic(auto)]

pub mod answers;
mod closing;
mod counting;
mod flipping;
mod lowest;
mod position;
pub mod run;
pub mod verdict;

// Reports: the five lines of a decoded job, and the line of a refused one.
#![tactic(auto)]

mod pattern_line;
mod pieces;
pub mod refusal_line;
pub mod report;
pub mod writing;

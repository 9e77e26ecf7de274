// Codes whose neighbours are written into tables.
#![tactic(auto)]

mod filling;
mod making;
mod table;
pub mod tabled;
mod tables;

// Codes that are written out row by row.
#![tactic(auto)]

pub mod making;
pub mod written;

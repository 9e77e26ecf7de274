// Scans over the qubits of a check or a generator.
#![tactic(auto)]

pub mod checks;
pub mod generators;

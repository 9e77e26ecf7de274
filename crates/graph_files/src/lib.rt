// Graphs in files: the matrix graph, its reader, and the writer of any graph.
#![tactic(auto)]

pub mod matrix;
pub mod reading;
pub mod writing;

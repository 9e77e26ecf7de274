// Decoding: of a syndrome and an erasure on any code, and of a job file.
#![tactic(auto)]

pub mod jobs_of_codes;
pub mod jobs_of_files;

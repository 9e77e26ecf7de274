// Codes: what every code tells, how large one may be, bare codes, and codes with checks and generators exchanged.
#![tactic(auto)]

pub mod bare;
pub mod code;
pub mod exchanged;
pub mod families;
pub mod limits;

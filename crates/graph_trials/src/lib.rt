// Trials of patterns, graphs and graph files on examples. Every expected value was worked out by hand.
#![tactic(auto)]

#[cfg(test)]
mod cyclic_trials;
#[cfg(test)]
mod pattern_trials;
#[cfg(test)]
mod reading_trials;
#[cfg(test)]
mod telling;
#[cfg(test)]
mod writing_trials;

// Trials of jobs and their moves on examples. Every expected value was worked out by hand.
#![tactic(auto)]

#[cfg(test)]
mod flipping_trials;
#[cfg(test)]
mod moving_trials;
#[cfg(test)]
mod refusing_trials;
#[cfg(test)]
mod running_trials;
#[cfg(test)]
mod trying;

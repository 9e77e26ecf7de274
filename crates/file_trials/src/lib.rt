// Trials of job files and of what is written of them.
#![tactic(auto)]

#[cfg(test)]
mod decoding_trials;
#[cfg(test)]
mod input_trials;
#[cfg(test)]
mod refusal_trials;

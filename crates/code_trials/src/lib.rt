// Trials of codes, products and syndromes on examples. Every expected value was worked out by hand.
#![tactic(auto)]

#[cfg(test)]
mod product_trials;
#[cfg(test)]
mod syndrome_trials;
#[cfg(test)]
mod telling;
#[cfg(test)]
mod written_trials;

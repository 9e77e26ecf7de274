// What a run answers.
use verdicts::Verdict;

// How many moves of each kind a run made, and the verdict after it.
#[derive(Clone, Copy)]
pub struct Run {
    pub peels: u32,
    pub prunes: u32,
    pub flips: u32,
    pub verdict: Verdict,
}

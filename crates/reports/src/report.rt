// What is told of a decoded job.
use verdicts::Verdict;

// The verdict, how many moves of each kind a run made, and the patterns that it left.
#[derive(Clone, Copy)]
pub struct Report<'a> {
    pub verdict: Verdict,
    pub peels: u32,
    pub prunes: u32,
    pub flips: u32,
    pub correction: &'a [u8],
    pub opened: &'a [u8],
}

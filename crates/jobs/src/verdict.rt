// Where a job stands.
ghost use Rattle.std.specs.Prelude.{◌≡◌, ◌<◌, None};
ghost use Rattle.refusals.specs.Questions.{first_no};
ghost use Rattle.patterns.specs.Patterns.{member};
ghost use Rattle.moves.specs.Jobs.{pattern_questions};
ghost use Rattle.moves.specs.Held.{model};
ghost use Rattle.jobs.specs.Choosing.{some_below};
ghost use Rattle.jobs.specs.Verdicts.{unmet, verdict, verdict_of};
ghost use Rattle.jobs.specs.Laws.{StalledExactly};

use crate::position::Position;
use codes::code::{Check, Code};
use moves::job::Job;
use patterns::items::contains;
use refusals::Refusal;
use scans::checks::meets;
use verdicts::Verdict;

// Whether some item below `count` is in the pattern.
fn has_some(bits: &[u8], count: u32) -> bool
    ensures { result ≡ some_below count (member bits.now) }
{
    (0..count).any(|k| contains(bits, k))
}

impl<'a, 'b, C: Code> Position<'a, 'b, C> {
    // Whether the check is in the remaining syndrome, and none of its qubits is open.
    // That it is one of the code stays required: a range gives one that is, and a number that keeps it would hold the code too.
    fn is_unmet(&self, u: Check) -> bool
        requires { u.0 < (C.layout self.now.code.now).checks }
        ensures { result ≡ unmet (C.layout self.now.code.now) (model self.now.job.now) u.0 }
    {
        let job = self.job;
        contains(job.remaining, u.0) && !meets(self.code, job.opened, u)
    }

    // Whether there is a check that no change of open qubits can meet.
    fn is_contradicted(&self) -> bool
        ensures { result ≡ some_below (C.layout self.now.code.now).checks (unmet (C.layout self.now.code.now) (model self.now.job.now)) }
    {
        (0..self.code.checks()).any(|u| self.is_unmet(Check(u)))
    }

    // The verdict: the first that fits.
    pub(crate) fn verdict(&self) -> Verdict
        ensures { result ≡ verdict (C.layout self.now.code.now) (model self.now.job.now) }
    {
        let job = self.job;
        if self.is_contradicted() {
            return Verdict::Contradicted;
        }
        if !has_some(job.opened, self.code.qubits()) {
            return Verdict::Settled;
        }
        if self.lowest_dangling(0).is_some() || self.lowest_wholly_open(0).is_some() {
            return Verdict::Moving;
        }
        if !has_some(job.remaining, self.code.checks()) {
            return Verdict::Matched;
        }
        if self.lowest_lowerable().is_some() {
            return Verdict::Moving;
        }
        Verdict::Stalled
    }
}

// The verdict on a job, which stays as it is. A job is stalled exactly when something remains, no move applies and nothing is contradicted.
pub fn verdict<C: Code>(code: &C, job: &Job) -> Result<Verdict, Refusal>
    ensures value { result ≡ (verdict_of (C.layout code.now) (model job.now)).0 }
    ensures stalled { StalledExactly (C.layout code.now) }
{
    job.ask_patterns(code)?;
    Ok(Position { code, job }.verdict())
}

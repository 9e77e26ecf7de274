// Runs: one move after another until none applies.
ghost use Rattle.std.specs.Prelude.{◌≡◌};
ghost use Rattle.moves.specs.Held.{model};
ghost use Rattle.jobs.specs.Runs.{run_of};
ghost use Rattle.jobs.specs.Laws.{RunEnds};
ghost use Rattle.jobs.specs.Theorem.{TwoJobs};

use crate::answers::Run;
use crate::closing::close_all;
use crate::counting::Counts;
use crate::flipping::flip_all;
use crate::position::Position;
use codes::code::Code;
use moves::job::Job;
use refusals::Refusal;

// Runs the job until no move applies: how many moves of each kind it made, and the verdict after them.
// A run of any job ends where no move applies, and two jobs from one opening agree, whatever was called on each.
pub fn run<C: Code>(code: &C, job: &mut Job) -> Result<Run, Refusal>
    ensures value { (result, model job.new) ≡ run_of (C.layout code.now) (model job.old) }
    ensures ends { RunEnds (C.layout code.now) }
    ensures agree { TwoJobs (C.layout code.now) }
{
    job.ask_patterns(code)?;
    let closed = close_all(code, job);
    let Counts {
        peels,
        prunes,
        flips,
    } = flip_all(code, job, closed);
    let verdict = Position { code, job }.verdict();
    Ok(Run {
        peels,
        prunes,
        flips,
        verdict,
    })
}

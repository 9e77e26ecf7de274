// Flips, once no qubit can be closed, until none applies.
ghost use Rattle.std.specs.Prelude.{◌≡◌, ◌+◌, ◌^◌, ◌<◌, None};
ghost use Rattle.refusals.specs.Questions.{first_no};
ghost use Rattle.moves.specs.Jobs.{pattern_questions};
ghost use Rattle.moves.specs.Held.{model};
ghost use Rattle.jobs.specs.Moving.{next};
ghost use Rattle.jobs.specs.Runs.{enough};
ghost use Rattle.jobs.specs.Closings.{NothingCloses};
ghost use Rattle.jobs.specs.Progress.{together, Came};

use crate::counting::Counts;
use crate::position::Position;
use codes::code::Code;
use moves::job::Job;

// The code and the job are two parameters, as where a step is made.
// Flips until no generator has a set lowering the weight; answers the counts with these flips. A flip leaves the open qubits, so nothing can be closed after it either.
pub(crate) fn flip_all<C: Code>(code: &C, job: &mut Job, mut counts: Counts) -> Counts
    requires patterns { first_no (pattern_questions (C.layout code.now) (model job.old)) ≡ None }
    requires closed { NothingCloses (C.layout code.now) (model job.old) }
    requires few { together counts + enough (model job.old) < 2 ^ 32 }
    ensures came { Came (C.layout code.now) counts (model job.old) result (model job.new) }
    ensures ended { next (C.layout code.now) (model job.new) ≡ None }
{
    while let Some(g) = (Position { code, job }).lowest_lowerable() {
        let _ = job.flip(code, g);
        counts.flips += 1;
    }
    counts
}

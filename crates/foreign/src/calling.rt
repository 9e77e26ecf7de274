// Calls on a job, its opening, and what they tell.
ghost use Rattle.std.specs.Prelude.{◌≡◌};
ghost use Rattle.moves.specs.Held.{model};
ghost use Rattle.jobs.specs.Calls.{call};
ghost use Rattle.foreign.specs.Calling.{meant, answered};
ghost use Rattle.foreign.specs.Tasks.{done};

use crate::numbers::Numbers;
use codes::code::{Check, Code, Generator, Qubit};
use jobs::answers::Run;
use jobs::run::run;
use jobs::verdict::verdict;
use moves::job::Job;
use refusals::Refusal;
use verdicts::Verdict;

// A move, a run, or the question for the verdict.
#[derive(Clone, Copy)]
pub(crate) enum Call {
    Peel(Check),
    Prune(Generator, Qubit),
    Flip(Generator),
    Run,
    Ask,
}

// What an accepted call tells; a prune and an opening tell nothing more than that.
#[derive(Clone, Copy)]
pub(crate) enum Answer {
    Peeled((Qubit, u8)),
    Accepted,
    Flipped((u32, u32)),
    Ran(Run),
    Stands(Verdict),
}

impl Call {
    // Makes the call. The code and the job stay two parameters, here and below, as the calls on a job take them.
    fn make<C: Code>(self, code: &C, job: &mut Job) -> Result<Answer, Refusal>
        ensures { (answered result, model job.new) ≡ call (C.layout code.now) (model job.old) (meant self) }
    {
        match self {
            Call::Peel(u) => job.peel(code, u).map(Answer::Peeled),
            Call::Prune(g, v) => job.prune(code, g, v).map(|()| Answer::Accepted),
            Call::Flip(g) => job.flip(code, g).map(Answer::Flipped),
            Call::Run => run(code, job).map(Answer::Ran),
            Call::Ask => verdict(code, job).map(Answer::Stands),
        }
    }
}

// What is to be done with a job: a call, or its opening on a syndrome and an erasure.
#[derive(Clone, Copy)]
pub(crate) enum Task<'a> {
    Call(Call),
    Open {
        syndrome: &'a [u8],
        erasure: &'a [u8],
    },
}

impl Task<'_> {
    // Does the task on a job of the code.
    pub(crate) fn act_on<C: Code>(self, code: &C, job: &mut Job) -> Numbers
        ensures { (result, model job.new) ≡ done (C.layout code.now) (model job.old) self.entry }
    {
        match self {
            Task::Call(call) => Numbers::from(call.make(code, job)),
            Task::Open { syndrome, erasure } => {
                Numbers::from(job.open(code, syndrome, erasure).map(|()| Answer::Accepted))
            }
        }
    }
}

// Peels and prunes, which close qubits, until neither applies.
ghost use Rattle.std.specs.Prelude.{◌≡◌, ◌+◌, ◌-◌, ◌^◌, ◌<◌, None};
ghost use Rattle.refusals.specs.Questions.{first_no};
ghost use Rattle.moves.specs.Jobs.{pattern_questions};
ghost use Rattle.moves.specs.Held.{model};
ghost use Rattle.jobs.specs.Moving.{moved};
ghost use Rattle.jobs.specs.Closings.{as_move, Passed, NextClosing, NothingCloses, cursors_after, shut_by};
ghost use Rattle.jobs.specs.Progress.{with_move, none_yet, Came};

use crate::counting::Counts;
use crate::lowest::{lowest_check, lowest_qubit};
use crate::position::Position;
use codes::code::{Check, Code, Generator, Qubit};
use moves::job::Job;

// A peel or a prune, with the qubit that it closes.
#[derive(Clone, Copy)]
pub(crate) enum Closing {
    Peel(Check, Qubit),
    Prune(Generator, Qubit),
}

// Where the next one is looked for: no check below `check` is dangling, and no generator below `generator` is wholly open.
#[derive(Clone, Copy, Default)]
pub(crate) struct Cursors {
    check: u32,
    generator: u32,
}

impl Cursors {
    // The cursors after the step. Closing a qubit can make only its own checks dangling, and no generator wholly open.
    // That its qubit is one of the code stays required: a step that keeps it would hold the code too.
    fn after<C: Code>(self, code: &C, step: Closing) -> Cursors
        requires { shut_by step < (C.layout code.now).qubits }
        ensures { result ≡ cursors_after (C.layout code.now) self step }
    {
        match step {
            Closing::Peel(u, v) => Cursors {
                check: lowest_check(code, u.0, v),
                generator: self.generator,
            },
            Closing::Prune(g, v) => Cursors {
                check: lowest_check(code, code.checks(), v),
                generator: g.0,
            },
        }
    }
}

impl Counts {
    // The counts with one step more.
    fn with(self, step: Closing) -> Counts
        requires { self.peels + self.prunes + self.flips < 2 ^ 32 - 1 }
        ensures { result ≡ with_move self (as_move step) }
    {
        match step {
            Closing::Peel(_, _) => Counts {
                peels: self.peels + 1,
                ..self
            },
            Closing::Prune(_, _) => Counts {
                prunes: self.prunes + 1,
                ..self
            },
        }
    }
}

impl<'a, 'b, C: Code> Position<'a, 'b, C> {
    // The next step: a peel of the lowest dangling check; else a prune of the lowest generator that is all open, at its lowest qubit.
    fn next_closing(&self, from: Cursors) -> Option<Closing>
        requires { Passed (C.layout self.now.code.now) (model self.now.job.now) from }
        ensures { NextClosing (C.layout self.now.code.now) (model self.now.job.now) result }
    {
        if let Some((u, v)) = self.lowest_dangling(from.check) {
            return Some(Closing::Peel(u, v));
        }
        let g = self.lowest_wholly_open(from.generator)?;
        Some(Closing::Prune(g, lowest_qubit(self.code, g)))
    }
}

// Makes the step, by the call that a single move is made with; a refused one leaves the job as it was.
// The code and the job that is changed stay two parameters: each method of a struct that holds a `&mut` would have to promise that it still holds the same one.
fn make<C: Code>(code: &C, job: &mut Job, step: Closing)
    ensures { model job.new ≡ moved (C.layout code.now) (model job.old) (as_move step) }
{
    match step {
        Closing::Peel(u, _) => {
            let _ = job.peel(code, u);
        }
        Closing::Prune(g, v) => {
            let _ = job.prune(code, g, v);
        }
    }
}

// Peels and prunes until neither applies; answers how many of each there were. The code and the job are two parameters, as in `make`.
pub(crate) fn close_all<C: Code>(code: &C, job: &mut Job) -> Counts
    requires { first_no (pattern_questions (C.layout code.now) (model job.old)) ≡ None }
    ensures came { Came (C.layout code.now) none_yet (model job.old) result (model job.new) }
    ensures closed { NothingCloses (C.layout code.now) (model job.new) }
{
    let mut counts = Counts::default();
    let mut from = Cursors::default();
    while let Some(step) = (Position { code, job }).next_closing(from) {
        make(code, job, step);
        from = from.after(code, step);
        counts = counts.with(step);
    }
    counts
}

// Where a job stands: what is read of a code and of a job on it.
ghost use Rattle.std.specs.Prelude.{◌≡◌, None};
ghost use Rattle.refusals.specs.Questions.{first_no};
ghost use Rattle.moves.specs.Jobs.{pattern_questions};
ghost use Rattle.moves.specs.Held.{model};

use codes::code::{Check, Code, Generator, Qubit};
use flips::finding::best_flip;
use moves::job::Job;
use scans::checks::only_one;
use scans::generators::all_held;

// A code and a job on it, whose patterns are well formed.
#[derive(Drop)]
pub(crate) struct Position<'a, 'b, C: Code> {
    pub(crate) code: &'a C,
    pub(crate) job: &'a Job<'b>,
    pub(crate) ghost asked: { first_no (pattern_questions (C.layout code.now) (model job.now)) ≡ None },
}

impl<'a, 'b, C: Code> Position<'a, 'b, C> {
    ghost use Rattle.std.specs.Prelude.{◌<◌, is_some};
    ghost use Rattle.std.specs.Option.{option_map, IfSome};
    ghost use Rattle.jobs.specs.Choosing.{lowest};
    ghost use Rattle.jobs.specs.Moving.{dangling, wholly_open, lowerable};
    ghost use Rattle.jobs.specs.Closings.{OpenAt};

    // The check with its open qubit, if it is dangling.
    // That the check is one of the code stays required: a range gives one that is, and a number that keeps it would hold the code too.
    fn as_dangling(&self, u: Check) -> Option<(Check, Qubit)>
        requires { u.0 < (C.layout self.now.code.now).checks }
        ensures value { is_some result ≡ dangling (C.layout self.now.code.now) (model self.now.job.now) u.0 }
        ensures check { IfSome result (λ p. p.0.0 ≡ u.0) }
        ensures qubit { OpenAt (C.layout self.now.code.now) (model self.now.job.now) result }
    {
        let job = self.job;
        let v = only_one(self.code, job.opened, u)?;
        Some((u, v))
    }

    // The lowest dangling check, with its open qubit; there is none below `from`.
    pub(crate) fn lowest_dangling(&self, from: u32) -> Option<(Check, Qubit)>
        requires { lowest from (dangling (C.layout self.now.code.now) (model self.now.job.now)) ≡ None }
        ensures value { option_map (λ p. p.0.0) result ≡ lowest (C.layout self.now.code.now).checks (dangling (C.layout self.now.code.now) (model self.now.job.now)) }
        ensures qubit { OpenAt (C.layout self.now.code.now) (model self.now.job.now) result }
    {
        (from..self.code.checks()).find_map(|u| self.as_dangling(Check(u)))
    }

    // That the generator is one of the code stays required, here and below, for the same reason.
    // Whether the generator has qubits, and all are open.
    fn is_wholly_open(&self, g: Generator) -> bool
        requires { g.0 < (C.layout self.now.code.now).generators }
        ensures { result ≡ wholly_open (C.layout self.now.code.now) (model self.now.job.now) g.0 }
    {
        let job = self.job;
        self.code.generator_qubit(g, 0).is_some() && all_held(self.code, job.opened, g)
    }

    // The lowest generator that has qubits, all of them open; there is none below `from`.
    pub(crate) fn lowest_wholly_open(&self, from: u32) -> Option<Generator>
        requires { lowest from (wholly_open (C.layout self.now.code.now) (model self.now.job.now)) ≡ None }
        ensures { option_map (λ g. g.0) result ≡ lowest (C.layout self.now.code.now).generators (wholly_open (C.layout self.now.code.now) (model self.now.job.now)) }
    {
        (from..self.code.generators())
            .find(|g| self.is_wholly_open(Generator(*g)))
            .map(Generator)
    }

    // Whether some set of open qubits of the generator lowers the weight of the remaining syndrome.
    fn is_lowerable(&self, g: Generator) -> bool
        requires { g.0 < (C.layout self.now.code.now).generators }
        ensures { result ≡ lowerable (C.layout self.now.code.now) (model self.now.job.now) g.0 }
    {
        let job = self.job;
        best_flip(self.code, job.remaining, job.opened, g).is_some()
    }

    // The lowest generator that has a set lowering the weight.
    pub(crate) fn lowest_lowerable(&self) -> Option<Generator>
        ensures { option_map (λ g. g.0) result ≡ lowest (C.layout self.now.code.now).generators (lowerable (C.layout self.now.code.now) (model self.now.job.now)) }
    {
        (0..self.code.generators())
            .find(|g| self.is_lowerable(Generator(*g)))
            .map(Generator)
    }
}

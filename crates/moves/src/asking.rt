// What every call on a job asks and reads first.
ghost use Rattle.std.specs.Prelude.{◌≡◌};
ghost use Rattle.std.specs.Option.{option_map};
ghost use Rattle.refusals.specs.Questions.{first_no, answer};
ghost use Rattle.patterns.specs.Patterns.{member};
ghost use Rattle.moves.specs.Jobs.{lengths, pattern_questions};
ghost use Rattle.scans.specs.Scans.{only_one, all_held};
ghost use Rattle.flips.specs.Flips.{best_flip};
ghost use Rattle.flips.specs.Held.{told};
ghost use Rattle.moves.specs.Held.{model};

use crate::job::Job;
use codes::code::{Check, Code, Generator, Qubit};
use flips::finding::best_flip;
use flips::flip::Flip;
use patterns::items::contains;
use patterns::shapes::{fits, unused_are_zero};
use refusals::Refusal;
use scans::checks::only_one;
use scans::generators::all_held;

impl<'a> Job<'a> {
    // Whether the patterns have their lengths, and then whether their unused bits are zero.
    pub fn ask_patterns<C: Code>(&self, code: &C) -> Result<(), Refusal>
        ensures { result ≡ answer (first_no (pattern_questions (C.layout code.now) (model self.now))) }
    {
        let qubits = code.qubits();
        let checks = code.checks();
        if !self.fits(checks, qubits) {
            return Err(Refusal::WrongPatternLength);
        }
        if !unused_are_zero(self.remaining, checks)
            || !unused_are_zero(self.opened, qubits)
            || !unused_are_zero(self.correction, qubits)
        {
            return Err(Refusal::UnusedBitSet);
        }
        Ok(())
    }

    // Whether the patterns have the lengths of so many checks and qubits.
    pub(crate) fn fits(&self, checks: u32, qubits: u32) -> bool
        ensures { result ≡ lengths checks qubits (model self.now) }
    {
        fits(self.remaining, checks) && fits(self.opened, qubits) && fits(self.correction, qubits)
    }

    // Whether the check is in the remaining syndrome.
    pub(crate) fn remains(&self, u: Check) -> bool
        ensures { result ≡ member (model self.now).remaining u.0 }
    {
        contains(self.remaining, u.0)
    }

    // The one open qubit of the check, if there is just one.
    pub(crate) fn only_open<C: Code>(&self, code: &C, u: Check) -> Option<Qubit>
        ensures { option_map (λ v. v.0) result ≡ only_one (C.layout code.now) (member (model self.now).opened) u.0 }
    {
        only_one(code, self.opened, u)
    }

    // Whether all qubits of the generator are open.
    pub(crate) fn all_open<C: Code>(&self, code: &C, g: Generator) -> bool
        ensures { result ≡ all_held (C.layout code.now) (member (model self.now).opened) g.0 }
    {
        all_held(code, self.opened, g)
    }

    // The best set of the generator's open qubits, if it lowers the weight of the remaining syndrome.
    pub(crate) fn best_flip<C: Code>(&self, code: &C, g: Generator) -> Option<Flip>
        ensures { option_map told result ≡ best_flip (C.layout code.now) (model self.now).remaining (model self.now).opened g.0 }
    {
        best_flip(code, self.remaining, self.opened, g)
    }
}

// Peeling: a check of which just one qubit is open decides that qubit.
ghost use Rattle.std.specs.Prelude.{◌≡◌};
ghost use Rattle.moves.specs.Moves.{peel_of};
ghost use Rattle.moves.specs.Held.{model, by_number};

use crate::changes::toggle_checks;
use crate::job::{Job, one_more};
use codes::code::{Check, Code, Qubit};
use patterns::items::toggle;
use refusals::Refusal;

impl<'a> Job<'a> {
    // Peels the check; answers its open qubit, with 1 or 0 for whether the qubit changed.
    // A pair with a number, and no struct or `bool`: a rule of the project for what a peel answers.
    pub fn peel<C: Code>(&mut self, code: &C, u: Check) -> Result<(Qubit, u8), Refusal>
        ensures { (by_number result, model self.new) ≡ peel_of (C.layout code.now) (model self.old) u.0 }
    {
        self.ask_patterns(code)?;
        let Some(_size) = code.check_size(u) else {
            return Err(Refusal::NumberOutOfRange);
        };
        let Some(qubit) = self.only_open(code, u) else {
            return Err(Refusal::NotDangling);
        };
        let changed = self.remains(u);
        if changed {
            toggle(self.correction, qubit.0);
            toggle_checks(code, self.remaining, qubit);
        }
        toggle(self.opened, qubit.0);
        self.moves = one_more(self.moves);
        Ok((qubit, u8::from(changed)))
    }
}

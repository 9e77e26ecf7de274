// Pruning: a generator whose qubits are all open allows one of them to be closed.
ghost use Rattle.std.specs.Prelude.{◌≡◌};
ghost use Rattle.moves.specs.Moves.{prune_of};
ghost use Rattle.moves.specs.Held.{model};

use crate::job::{Job, one_more};
use codes::code::{Code, Generator, Qubit};
use patterns::items::toggle;
use refusals::Refusal;
use scans::generators::holds;

impl<'a> Job<'a> {
    // Prunes the generator at the qubit. The correction keeps what an earlier flip did to the qubit.
    pub fn prune<C: Code>(&mut self, code: &C, g: Generator, v: Qubit) -> Result<(), Refusal>
        ensures { (result, model self.new) ≡ prune_of (C.layout code.now) (model self.old) g.0 v.0 }
    {
        self.ask_patterns(code)?;
        let Some(_size) = code.generator_size(g) else {
            return Err(Refusal::NumberOutOfRange);
        };
        let Some(_checks) = code.checks_of(v) else {
            return Err(Refusal::NumberOutOfRange);
        };
        if !holds(code, g, v) {
            return Err(Refusal::NotInGenerator);
        }
        if !self.all_open(code, g) {
            return Err(Refusal::NotAllOpen);
        }
        toggle(self.opened, v.0);
        self.moves = one_more(self.moves);
        Ok(())
    }
}

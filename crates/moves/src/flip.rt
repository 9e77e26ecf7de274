// Flipping: of the sets of a generator's open qubits, the best one changes, if it lowers the weight of the remaining syndrome.
ghost use Rattle.std.specs.Prelude.{◌≡◌};
ghost use Rattle.moves.specs.Moves.{flip_of};
ghost use Rattle.moves.specs.Held.{model};

use crate::changes::{toggle_all, toggle_syndrome};
use crate::job::{Job, one_more};
use codes::code::{Code, Generator};
use refusals::Refusal;

impl<'a> Job<'a> {
    // Flips the generator's best set; answers by how much the weight falls, and how many qubits the set has.
    // Plain numbers, and no struct: a rule of the project for what a flip answers.
    pub fn flip<C: Code>(&mut self, code: &C, g: Generator) -> Result<(u32, u32), Refusal>
        ensures { (result, model self.new) ≡ flip_of (C.layout code.now) (model self.old) g.0 }
    {
        self.ask_patterns(code)?;
        let Some(_size) = code.generator_size(g) else {
            return Err(Refusal::NumberOutOfRange);
        };
        let Some(flip) = self.best_flip(code, g) else {
            return Err(Refusal::NoSetLowers);
        };
        let qubits = flip.qubits();
        toggle_all(self.correction, qubits);
        toggle_syndrome(code, self.remaining, qubits);
        self.moves = one_more(self.moves);
        Ok((flip.fall, qubits.len() as u32))
    }
}

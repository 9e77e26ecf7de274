// Opening a job.
ghost use Rattle.std.specs.Prelude.{◌≡◌};
ghost use Rattle.refusals.specs.Questions.{first_no, answer};
ghost use Rattle.moves.specs.Jobs.{opening_questions, open_of};
ghost use Rattle.moves.specs.Held.{model};

use crate::job::Job;
use codes::code::Code;
use patterns::shapes::{fits, unused_are_zero};
use refusals::Refusal;

impl<'a> Job<'a> {
    // Whether all five patterns have their lengths, and then whether the unused bits of the two that are read are zero.
    fn ask_opening<C: Code>(&self, code: &C, syndrome: &[u8], erasure: &[u8]) -> Result<(), Refusal>
        ensures { result ≡ answer (first_no (opening_questions (C.layout code.now) (model self.now) syndrome.now erasure.now)) }
    {
        let qubits = code.qubits();
        let checks = code.checks();
        if !fits(syndrome, checks) || !fits(erasure, qubits) || !self.fits(checks, qubits) {
            return Err(Refusal::WrongPatternLength);
        }
        if !unused_are_zero(syndrome, checks) || !unused_are_zero(erasure, qubits) {
            return Err(Refusal::UnusedBitSet);
        }
        Ok(())
    }

    // Opens the job new on a syndrome and an erasure. They stay two parameters: the laboratories send two patterns, and a struct would only be unpacked here.
    pub fn open<C: Code>(
        &mut self,
        code: &C,
        syndrome: &[u8],
        erasure: &[u8],
    ) -> Result<(), Refusal>
        ensures { (result, model self.new) ≡ open_of (C.layout code.now) (model self.old) syndrome.now erasure.now }
    {
        self.ask_opening(code, syndrome, erasure)?;
        self.remaining.copy_from_slice(syndrome);
        self.opened.copy_from_slice(erasure);
        self.correction.fill(0);
        self.moves = 0;
        Ok(())
    }
}

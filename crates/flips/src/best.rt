// The best set of some open qubits.
ghost use Rattle.std.specs.Prelude.{◌≡◌, ◌≤◌, true, length, MatchOption};
ghost use Rattle.patterns.specs.Sets.{Apart};
ghost use Rattle.patterns.specs.Patterns.{fitting, tidy};
ghost use Rattle.flips.specs.Local.{Rows, BestBy};
ghost use Rattle.flips.specs.Flips.{left_by};

use crate::marks::{packed, read_parities, row};
use crate::opened::Opened;
use arrayvec::ArrayVec;
use best_sets::{Words, best_choice, weigh};
use codes::code::{Code, Qubit};

// A set of some qubits: by how much it lowers the weight, and its number, in which the first qubit is the highest bit.
#[derive(Clone, Copy)]
pub(crate) struct Best {
    pub(crate) fall: u32,
    pub(crate) picks: u32,
}

impl<'a, C: Code> Opened<'a, C> {
    // For each qubit the places of its checks among `checks`, a slice of the scratch array: so few and apart stay required.
    fn rows(&self, checks: &[u32]) -> ArrayVec<Words, 12>
        requires checks_len_bound { length checks.now ≤ 144 }
        requires apart { Apart checks.now }
        ensures { Rows (C.layout self.now.code.now) checks.now self.now.qubits.items result.items }
    {
        let mut rows = ArrayVec::new();
        for v in self.qubits.iter() {
            rows.push(row(self.code, Qubit(*v), checks));
        }
        rows
    }

    // The best set of the qubits; there is always one.
    // What the syndrome is stays required: it is a slice of the caller's, and a struct around it would be made for this one call.
    pub(crate) fn best(&self, remaining: &[u8]) -> Option<Best>
        requires fits { fitting (C.layout self.now.code.now).checks remaining.now ≡ true }
        requires unused_zero { tidy (C.layout self.now.code.now).checks remaining.now ≡ true }
        ensures { MatchOption result ⊥ (λ b. BestBy (left_by (C.layout self.now.code.now) remaining.now) self.now.qubits.items b.fall b.picks) }
    {
        // Arrays of plain numbers with their count: a rule of the project for the checks of a flip, which are at most 144.
        let mut checks = [0; 144];
        let count = self.gather_checks(&mut checks);
        let local = &checks[..count];
        let mut parities = [0; 144];
        read_parities(remaining, local, &mut parities);
        let start = packed(&parities[..count]);
        let best = best_choice(&self.rows(local), start)?;
        Some(Best {
            fall: weigh(start) - best.weight,
            picks: best.picks,
        })
    }
}

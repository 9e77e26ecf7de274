// The best set of a generator's open qubits.
ghost use Rattle.std.specs.Prelude.{◌≡◌, ◌≤◌, length};
ghost use Rattle.std.specs.Option.{option_map};
ghost use Rattle.flips.specs.Local.{picked};
ghost use Rattle.flips.specs.Flips.{best_flip};
ghost use Rattle.flips.specs.Held.{told};

use crate::best::Best;
use crate::flip::Flip;
use crate::opened::Opened;
use codes::code::{Code, Generator};
use patterns::shapes::{fits, unused_are_zero};

impl Flip {
    // The qubits of the set, rising.
    pub fn qubits(&self) -> &[u32]
        ensures value { result.now ≡ (told self.now).1 }
        ensures few { length result.now ≤ 12 }
    {
        &self.qubits[..self.size]
    }
}

impl<'a, C: Code> Opened<'a, C> {
    // The set of the qubits that has the number, with its fall.
    fn picked(&self, best: Best) -> Flip
        ensures { told result ≡ (best.fall, picked best.picks self.now.qubits.items) }
    {
        // The array of a flip is filled with its count, as it holds both.
        let mut chosen = [0; 12];
        let mut size = 0;
        for (i, v) in self.qubits.iter().enumerate() {
            if (best.picks >> (self.qubits.len() - 1 - i)) % 2 == 1 {
                chosen[size] = *v;
                size += 1;
            }
        }
        Flip {
            fall: best.fall,
            size,
            qubits: chosen,
        }
    }
}

// The best set of the open qubits of the generator, if it lowers the weight of the remaining syndrome.
pub fn best_flip<C: Code>(code: &C, remaining: &[u8], opened: &[u8], g: Generator) -> Option<Flip>
    ensures { option_map told result ≡ best_flip (C.layout code.now) remaining.now opened.now g.0 }
{
    let checks = code.checks();
    if !fits(remaining, checks) || !unused_are_zero(remaining, checks) || g.0 >= code.generators() {
        return None;
    }
    let open = Opened::of(code, opened, g);
    let best = open.best(remaining)?;
    if best.fall == 0 {
        return None;
    }
    Some(open.picked(best))
}

// Which qubits of a check are in a set.
ghost use Rattle.std.specs.Prelude.{◌≡◌};
ghost use Rattle.std.specs.Option.{option_map};
ghost use Rattle.patterns.specs.Patterns.{member};
ghost use Rattle.scans.specs.Scans.{only_one, meets};

use codes::code::{Check, Code, Qubit};
use codes::families::Checks;
use matrices::families::Neighbours;
use patterns::items::contains;

// The one qubit of check u that is in the set, if there is just one.
pub fn only_one<C: Code>(code: &C, set: &[u8], u: Check) -> Option<Qubit>
    ensures { option_map (λ v. v.0) result ≡ only_one (C.layout code.now) (member set.now) u.0 }
{
    let mut met = Neighbours::of(Checks { code }, u.0).filter(|v| contains(set, *v));
    let first = met.next()?;
    met.next().is_none().then_some(Qubit(first))
}

// Whether some qubit of check u is in the set.
pub fn meets<C: Code>(code: &C, set: &[u8], u: Check) -> bool
    ensures { result ≡ meets (C.layout code.now) (member set.now) u.0 }
{
    Neighbours::of(Checks { code }, u.0).any(|v| contains(set, v))
}

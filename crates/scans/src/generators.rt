// Which qubits a generator holds, and whether they are all in a set.
ghost use Rattle.std.specs.Prelude.{◌≡◌};
ghost use Rattle.patterns.specs.Patterns.{member};
ghost use Rattle.scans.specs.Scans.{held_by, all_held};

use codes::code::{Code, Generator, Qubit};
use codes::families::Generators;
use matrices::families::Neighbours;
use patterns::items::contains;

// Whether the generator holds the qubit.
pub fn holds<C: Code>(code: &C, g: Generator, v: Qubit) -> bool
    ensures { result ≡ held_by (C.layout code.now) g.0 v.0 }
{
    Neighbours::of(Generators { code }, g.0).any(|w| w == v.0)
}

// Whether all qubits of the generator are in the set.
pub fn all_held<C: Code>(code: &C, set: &[u8], g: Generator) -> bool
    ensures { result ≡ all_held (C.layout code.now) (member set.now) g.0 }
{
    g.0 < code.generators() && Neighbours::of(Generators { code }, g.0).all(|v| contains(set, v))
}

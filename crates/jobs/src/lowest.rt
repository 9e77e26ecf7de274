// The lowest of the qubits of a generator, and of the checks of a qubit.
// That both are of the code stays required: a number that keeps it would hold the code too, for one call.
ghost use Rattle.std.specs.Prelude.{◌≡◌, ◌<◌, ◌∷◌};
ghost use Rattle.jobs.specs.Choosing.{least};

use codes::code::{Code, Generator, Qubit};
use codes::families::{ByCheck, Generators};
use matrices::families::Neighbours;

// The lowest qubit of the generator; qubit 0 where it has none.
pub(crate) fn lowest_qubit<C: Code>(code: &C, g: Generator) -> Qubit
    requires { g.0 < (C.layout code.now).generators }
    ensures { result.0 ≡ least ((C.layout code.now).of_generator g.0) }
{
    Qubit(Neighbours::of(Generators { code }, g.0).min().unwrap_or(0))
}

// The lowest of `from` and of the checks of the qubit.
pub(crate) fn lowest_check<C: Code>(code: &C, from: u32, v: Qubit) -> u32
    requires { v.0 < (C.layout code.now).qubits }
    ensures { result ≡ least (from ∷ (C.layout code.now).checks_of v.0) }
{
    Neighbours::of(ByCheck { code }, v.0).fold(from, |lowest, u| lowest.min(u))
}

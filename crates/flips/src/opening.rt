// The open qubits of a generator, in rising order.
ghost use Rattle.std.specs.Prelude.{◌≡◌, ◌<◌};
ghost use Rattle.patterns.specs.Patterns.{member};
ghost use Rattle.flips.specs.Flips.{open_in};

use crate::opened::Opened;
use arrayvec::ArrayVec;
use codes::code::{Code, Generator};
use codes::families::Generators;
use matrices::families::Neighbours;
use patterns::items::contains;

// That the generator is one of the code stays required: a generator that keeps it would hold the code too, for two calls.
// The open qubits of the generator, rising.
fn open_qubits<C: Code>(code: &C, opened: &[u8], g: Generator) -> ArrayVec<u32, 12>
    requires { g.0 < (C.layout code.now).generators }
    ensures { result.items ≡ open_in (C.layout code.now) (member opened.now) g.0 }
{
    let mut qubits = ArrayVec::new();
    for v in Neighbours::of(Generators { code }, g.0) {
        if contains(opened, v) {
            qubits.push(v);
        }
    }
    qubits.sort_unstable();
    qubits
}

impl<'a, C: Code> Opened<'a, C> {
    // The open qubits of the generator of the code.
    pub(crate) fn of(code: &'a C, opened: &[u8], g: Generator) -> Self
        requires { g.0 < (C.layout code.now).generators }
        ensures code { result.code.now ≡ code.now }
        ensures qubits { result.qubits.items ≡ open_in (C.layout code.now) (member opened.now) g.0 }
    {
        Opened {
            code,
            qubits: open_qubits(code, opened, g),
        }
    }
}

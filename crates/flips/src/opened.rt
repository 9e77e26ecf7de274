// Some qubits of a code.
ghost use Rattle.std.specs.Prelude.{◌<◌};
ghost use Rattle.std.specs.List.{All};
ghost use Rattle.best_sets.specs.Rising.{Rising};
ghost use Rattle.best_sets.proofs.Rises.{Rising-prop};

use arrayvec::ArrayVec;
use codes::code::Code;

// At most twelve qubits of a code, rising.
#[derive(Drop)]
pub(crate) struct Opened<'a, C: Code> {
    pub(crate) code: &'a C,
    pub(crate) qubits: ArrayVec<u32, 12>,
    ghost rising: { Rising qubits.items } by { Rising-prop qubits.items },
    ghost in_range: { All (λ v. v < (C.layout code.now).qubits) qubits.items },
}

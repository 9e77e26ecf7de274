// A flip: a set of open qubits of one generator that lowers the weight.
ghost use Rattle.std.specs.Prelude.{◌≤◌};

// By how much it lowers the weight, how many qubits it has, and the qubits, rising, in front of the array.
// The array has its count beside it because a flip is Copy, which an ArrayVec is not.
#[derive(Clone, Copy)]
pub struct Flip {
    pub fall: u32,
    pub(crate) size: usize,
    pub(crate) qubits: [u32; 12],
    ghost few: { size ≤ 12 },
}

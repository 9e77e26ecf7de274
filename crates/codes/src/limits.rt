// How large a code may be.

// The largest number of qubits in a check or a generator, and of checks or generators that hold a qubit.
pub const MOST_WEIGHT: u32 = 12;

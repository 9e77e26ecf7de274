// What every code tells of itself.
ghost use Rattle.std.specs.Prelude.{◌≡◌, ℕ};
ghost use Rattle.std.specs.Option.{option_map};
ghost use Rattle.matrices.specs.Relations.{size_at, neighbour};
ghost use Rattle.codes.specs.Layouts.{Layout, Sound};

// The number of a qubit.
#[derive(Clone, Copy, PartialEq, Eq, Debug)]
pub struct Qubit(pub u32);

// The number of a check.
#[derive(Clone, Copy, PartialEq, Eq, Debug)]
pub struct Check(pub u32);

// The number of a generator.
#[derive(Clone, Copy, PartialEq, Eq, Debug)]
pub struct Generator(pub u32);

// A code of qubits, checks and generators. A question about what the code has not is answered with nothing.
pub trait Code {
    // The letter of the kind, which reports print.
    const LETTER: u8;

    ghost layout: { Self → Layout };

    // What the constant of its name is.
    ghost LETTER: { ℕ };

    fn qubits(&self) -> u32
        ensures { result ≡ (layout self.now).qubits };

    fn checks(&self) -> u32
        ensures { result ≡ (layout self.now).checks };

    fn generators(&self) -> u32
        ensures { result ≡ (layout self.now).generators };

    // How many qubits lie in the check.
    fn check_size(&self, u: Check) -> Option<u32>
        ensures { result ≡ size_at (layout self.now).checks (layout self.now).of_check u.0 };

    // How many qubits lie in the generator.
    fn generator_size(&self, g: Generator) -> Option<u32>
        ensures { result ≡ size_at (layout self.now).generators (layout self.now).of_generator g.0 };

    // How many checks hold the qubit.
    fn checks_of(&self, v: Qubit) -> Option<u32>
        ensures { result ≡ size_at (layout self.now).qubits (layout self.now).checks_of v.0 };

    // How many generators hold the qubit.
    fn generators_of(&self, v: Qubit) -> Option<u32>
        ensures { result ≡ size_at (layout self.now).qubits (layout self.now).generators_of v.0 };

    // The k-th qubit of the check.
    fn check_qubit(&self, u: Check, k: u32) -> Option<Qubit>
        ensures { option_map (λ v. v.0) result ≡ neighbour (layout self.now).checks (layout self.now).of_check u.0 k };

    // The k-th qubit of the generator.
    fn generator_qubit(&self, g: Generator, k: u32) -> Option<Qubit>
        ensures { option_map (λ v. v.0) result ≡ neighbour (layout self.now).generators (layout self.now).of_generator g.0 k };

    // The k-th check of the qubit.
    fn qubit_check(&self, v: Qubit, k: u32) -> Option<Check>
        ensures { option_map (λ u. u.0) result ≡ neighbour (layout self.now).qubits (layout self.now).checks_of v.0 k };

    // The k-th generator of the qubit.
    fn qubit_generator(&self, v: Qubit, k: u32) -> Option<Generator>
        ensures { option_map (λ g. g.0) result ≡ neighbour (layout self.now).qubits (layout self.now).generators_of v.0 k };

    ghost sound: { (c : Self) → Sound (layout c) };
}

// The four families of nodes of a code. Four structs and not one with a parameter, since each asks other methods of the code.
ghost use Rattle.codes.specs.Shorts.{short_check, short_generator, short_by_check, short_by_generator};

use crate::code::{Check, Code, Generator, Qubit};
use matrices::families::Family;

// The checks, and the qubits of each.
#[derive_where(Clone, Copy)]
pub struct Checks<'a, C> {
    pub code: &'a C,
}

impl<'a, C: Code> Family for Checks<'a, C> {
    ghost nodes = { λ s. (C.Code.layout s.code.now).checks };

    ghost rows = { λ s. (C.Code.layout s.code.now).of_check };

    ghost short = { λ s. short_check (C.Code.sound s.code.now) };

    fn count(&self) -> u32 {
        self.code.checks()
    }

    fn size(&self, u: u32) -> Option<u32> {
        self.code.check_size(Check(u))
    }

    fn neighbour(&self, u: u32, k: u32) -> Option<u32> {
        let Qubit(v) = self.code.check_qubit(Check(u), k)?;
        Some(v)
    }
}

// The generators, and the qubits of each.
#[derive_where(Clone, Copy)]
pub struct Generators<'a, C> {
    pub code: &'a C,
}

impl<'a, C: Code> Family for Generators<'a, C> {
    ghost nodes = { λ s. (C.Code.layout s.code.now).generators };

    ghost rows = { λ s. (C.Code.layout s.code.now).of_generator };

    ghost short = { λ s. short_generator (C.Code.sound s.code.now) };

    fn count(&self) -> u32 {
        self.code.generators()
    }

    fn size(&self, u: u32) -> Option<u32> {
        self.code.generator_size(Generator(u))
    }

    fn neighbour(&self, u: u32, k: u32) -> Option<u32> {
        let Qubit(v) = self.code.generator_qubit(Generator(u), k)?;
        Some(v)
    }
}

// The qubits, and the checks of each.
#[derive_where(Clone, Copy)]
pub struct ByCheck<'a, C> {
    pub code: &'a C,
}

impl<'a, C: Code> Family for ByCheck<'a, C> {
    ghost nodes = { λ s. (C.Code.layout s.code.now).qubits };

    ghost rows = { λ s. (C.Code.layout s.code.now).checks_of };

    ghost short = { λ s. short_by_check (C.Code.sound s.code.now) };

    fn count(&self) -> u32 {
        self.code.qubits()
    }

    fn size(&self, u: u32) -> Option<u32> {
        self.code.checks_of(Qubit(u))
    }

    fn neighbour(&self, u: u32, k: u32) -> Option<u32> {
        let Check(v) = self.code.qubit_check(Qubit(u), k)?;
        Some(v)
    }
}

// The qubits, and the generators of each.
#[derive_where(Clone, Copy)]
pub struct ByGenerator<'a, C> {
    pub code: &'a C,
}

impl<'a, C: Code> Family for ByGenerator<'a, C> {
    ghost nodes = { λ s. (C.Code.layout s.code.now).qubits };

    ghost rows = { λ s. (C.Code.layout s.code.now).generators_of };

    ghost short = { λ s. short_by_generator (C.Code.sound s.code.now) };

    fn count(&self) -> u32 {
        self.code.qubits()
    }

    fn size(&self, u: u32) -> Option<u32> {
        self.code.generators_of(Qubit(u))
    }

    fn neighbour(&self, u: u32, k: u32) -> Option<u32> {
        let Generator(v) = self.code.qubit_generator(Qubit(u), k)?;
        Some(v)
    }
}

// Any code with its checks and its generators exchanged.
ghost use Rattle.codes.specs.Exchanging.{exchanged};
ghost use Rattle.std.proofs.Common.{◌∙◌};
ghost use Rattle.patterns.proofs.Lists.{parity_swap};

use crate::code::{Check, Code, Generator, Qubit};

#[derive(Drop)]
pub struct Exchanged<C> {
    pub code: C,
}

impl<C: Code> Code for Exchanged<C> {
    const LETTER: u8 = b'E';

    ghost layout = { λ x. exchanged (C.Code.layout x.code) };

    ghost LETTER = { 69 };

    ghost sound = { λ c.
        let inner = C.Code.sound c.code in
        let l = C.Code.layout c.code in
        record {
          some_qubits = inner.some_qubits;
          few_qubits = inner.few_qubits;
          few_checks = inner.few_generators;
          few_generators = inner.few_checks;
          by_check = inner.by_generator;
          by_generator = inner.by_check;
          even = λ u k hu hk. parity_swap (l.of_check k) (l.of_generator u) (inner.by_check.row_apart k hk) (inner.by_generator.row_apart u hu) ∙ inner.even k u hk hu;
        } };

    fn qubits(&self) -> u32 {
        self.code.qubits()
    }

    fn checks(&self) -> u32 {
        self.code.generators()
    }

    fn generators(&self) -> u32 {
        self.code.checks()
    }

    fn check_size(&self, u: Check) -> Option<u32> {
        self.code.generator_size(Generator(u.0))
    }

    fn generator_size(&self, g: Generator) -> Option<u32> {
        self.code.check_size(Check(g.0))
    }

    fn checks_of(&self, v: Qubit) -> Option<u32> {
        self.code.generators_of(v)
    }

    fn generators_of(&self, v: Qubit) -> Option<u32> {
        self.code.checks_of(v)
    }

    fn check_qubit(&self, u: Check, k: u32) -> Option<Qubit> {
        self.code.generator_qubit(Generator(u.0), k)
    }

    fn generator_qubit(&self, g: Generator, k: u32) -> Option<Qubit> {
        self.code.check_qubit(Check(g.0), k)
    }

    fn qubit_check(&self, v: Qubit, k: u32) -> Option<Check> {
        let Generator(g) = self.code.qubit_generator(v, k)?;
        Some(Check(g))
    }

    fn qubit_generator(&self, v: Qubit, k: u32) -> Option<Generator> {
        let Check(u) = self.code.qubit_check(v, k)?;
        Some(Generator(u))
    }
}

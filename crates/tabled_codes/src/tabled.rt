// Any code with its neighbours written into tables, and answered from there.
ghost use Rattle.std.specs.Prelude.{◌≡◌, MatchResult};
ghost use Rattle.refusals.specs.declared.Refusal.TheVariants.{OutOfMemory};
ghost use Rattle.tabled_codes.specs.Held.{layout_of};
ghost use Rattle.std.proofs.Math.Logic.{∥∥₁_elim};
ghost use Rattle.tabled_codes.specs.Alike.{sound_prop};

use crate::tables::Tables;
use codes::code::{Check, Code, Generator, Qubit};
use refusals::Refusal;
use std::alloc::Global;

#[derive(Drop)]
pub struct Tabled<C> {
    pub code: C,
    pub tables: Tables,
}

impl<C: Code + Drop> Tabled<C> {
    // The same code, with its neighbours in tables.
    pub fn of(heap: Global, code: C) -> Result<Tabled<C>, Refusal>
        ensures { MatchResult result
            (λ x. (x.code ≡ code) × (layout_of x.tables (C.Code.layout x.code) ≡ C.Code.layout code))
            (λ e. e ≡ OutOfMemory) }
    {
        let tables = Tables::of(heap, &code)?;
        Ok(Tabled { code, tables })
    }
}

impl<C: Code> Code for Tabled<C> {
    const LETTER: u8 = C::LETTER;

    ghost layout = { λ x. layout_of x.tables (C.Code.layout x.code) };

    ghost LETTER = { C.Code.LETTER };

    ghost sound = { λ x.
        let rest = C.Code.layout x.code in
        ∥∥₁_elim (x.tables.sound rest) (sound_prop (layout_of x.tables rest)) (λ s. s) };

    fn qubits(&self) -> u32 {
        self.tables.by_check.count()
    }

    fn checks(&self) -> u32 {
        self.tables.checks.count()
    }

    fn generators(&self) -> u32 {
        self.tables.generators.count()
    }

    fn check_size(&self, u: Check) -> Option<u32> {
        self.tables.checks.size(u.0)
    }

    fn generator_size(&self, g: Generator) -> Option<u32> {
        self.tables.generators.size(g.0)
    }

    fn checks_of(&self, v: Qubit) -> Option<u32> {
        self.tables.by_check.size(v.0)
    }

    fn generators_of(&self, v: Qubit) -> Option<u32> {
        self.tables.by_generator.size(v.0)
    }

    fn check_qubit(&self, u: Check, k: u32) -> Option<Qubit> {
        let v = self.tables.checks.neighbour(u.0, k)?;
        Some(Qubit(v))
    }

    fn generator_qubit(&self, g: Generator, k: u32) -> Option<Qubit> {
        let v = self.tables.generators.neighbour(g.0, k)?;
        Some(Qubit(v))
    }

    fn qubit_check(&self, v: Qubit, k: u32) -> Option<Check> {
        let u = self.tables.by_check.neighbour(v.0, k)?;
        Some(Check(u))
    }

    fn qubit_generator(&self, v: Qubit, k: u32) -> Option<Generator> {
        let g = self.tables.by_generator.neighbour(v.0, k)?;
        Some(Generator(g))
    }
}

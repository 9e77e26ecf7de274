// A code that is written out: the qubits of each check and each generator, and back, in rising order.
ghost use Rattle.std.specs.Prelude.{◌≡◌, true, length};
ghost use Rattle.matrices.specs.Adjacent.{lists};
ghost use Rattle.written_codes.specs.Listing.{listed_code, most_written_qubits, most_written_rows, within, all_even};
ghost use Rattle.written_codes.specs.Builds.{sound_listed};

use codes::code::{Check, Code, Generator, Qubit};
use codes::limits::MOST_WEIGHT;
use matrices::sparse::Sparse;

// The qubits are the columns of both, the checks and the generators the rows.
#[derive(Drop)]
pub struct Written {
    pub checks: Sparse<MOST_WEIGHT>,
    pub generators: Sparse<MOST_WEIGHT>,
    ghost same_qubits: { length (lists generators.relation.columns.nodes) ≡ length (lists checks.relation.columns.nodes) },
    ghost qubits_in_range: { within most_written_qubits (length (lists checks.relation.columns.nodes)) ≡ true },
    ghost checks_in_range: { within most_written_rows (length (lists checks.relation.rows.nodes)) ≡ true },
    ghost generators_in_range: { within most_written_rows (length (lists generators.relation.rows.nodes)) ≡ true },
    ghost even: { all_even (lists checks.relation.rows.nodes) (lists generators.relation.rows.nodes) ≡ true },
}

impl Code for Written {
    const LETTER: u8 = b'W';

    ghost layout = { λ w.
        let c = w.checks.relation in
        let g = w.generators.relation in
        listed_code (lists c.rows.nodes) (lists c.columns.nodes) (lists g.rows.nodes) (lists g.columns.nodes) };

    ghost LETTER = { 87 };

    ghost sound = { λ w.
        let c = w.checks.relation in
        let g = w.generators.relation in
        sound_listed (lists c.rows.nodes) (lists c.columns.nodes) (lists g.rows.nodes) (lists g.columns.nodes)
        c.by_row c.by_column g.by_row g.by_column
        w.same_qubits w.qubits_in_range w.checks_in_range w.generators_in_range
        w.checks.few_in_rows w.checks.few_in_columns w.generators.few_in_rows w.generators.few_in_columns w.even };

    fn qubits(&self) -> u32 {
        self.checks.relation.columns.count() as u32
    }

    fn checks(&self) -> u32 {
        self.checks.relation.rows.count() as u32
    }

    fn generators(&self) -> u32 {
        self.generators.relation.rows.count() as u32
    }

    fn check_size(&self, u: Check) -> Option<u32> {
        self.checks.row_size(u.0)
    }

    fn generator_size(&self, g: Generator) -> Option<u32> {
        self.generators.row_size(g.0)
    }

    fn checks_of(&self, v: Qubit) -> Option<u32> {
        self.checks.column_size(v.0)
    }

    fn generators_of(&self, v: Qubit) -> Option<u32> {
        self.generators.column_size(v.0)
    }

    fn check_qubit(&self, u: Check, k: u32) -> Option<Qubit> {
        let v = self.checks.relation.rows.neighbour(u.0, k)?;
        Some(Qubit(v))
    }

    fn generator_qubit(&self, g: Generator, k: u32) -> Option<Qubit> {
        let v = self.generators.relation.rows.neighbour(g.0, k)?;
        Some(Qubit(v))
    }

    fn qubit_check(&self, v: Qubit, k: u32) -> Option<Check> {
        let u = self.checks.relation.columns.neighbour(v.0, k)?;
        Some(Check(u))
    }

    fn qubit_generator(&self, v: Qubit, k: u32) -> Option<Generator> {
        let g = self.generators.relation.columns.neighbour(v.0, k)?;
        Some(Generator(g))
    }
}

// Making a code from its rows.
ghost use Rattle.std.specs.Prelude.{◌≡◌, None, MatchResult};
ghost use Rattle.std.specs.Option.{unwrap_or};
ghost use Rattle.refusals.specs.declared.Refusal.TheVariants.{OutOfMemory};
ghost use Rattle.refusals.specs.Questions.{first_no, answer};
ghost use Rattle.patterns.specs.Sets.{all_below};
ghost use Rattle.written_codes.specs.Listing.{within};
ghost use Rattle.written_codes.specs.Writing.{shares_even, written_questions, written_refusal, written_code};
ghost use Rattle.written_codes.specs.Held.{code_of};

use crate::written::Written;
use codes::limits::MOST_WEIGHT;
use matrices::relation::Relation;
use matrices::rows::BitRows;
use matrices::sparse::Sparse;
use patterns::items::contains;
use refusals::Refusal;
use std::alloc::Global;

const MOST_QUBITS: u32 = 256;

const MOST_ROWS: u32 = 128;

// So many rows, one pattern over the qubits after another.
// A BitRows would tell the columns too, which both kinds of rows have from one number of qubits.
#[derive(Clone, Copy)]
pub struct Rows<'a> {
    pub count: u32,
    pub bytes: &'a [u8],
}

impl<'a> Rows<'a> {
    // The rows as a matrix over so many qubits.
    fn over(self, qubits: u32) -> BitRows<'a>
        ensures { result ≡ record { rows = self.entry.count; columns = qubits; bytes = self.entry.bytes } }
    {
        BitRows {
            rows: self.count,
            columns: qubits,
            bytes: self.bytes,
        }
    }
}

// The rows of the checks and those of the generators, over the same qubits.
#[derive(Clone, Copy)]
struct Sides<'a> {
    checks: BitRows<'a>,
    generators: BitRows<'a>,
    ghost same_qubits: { generators.columns ≡ checks.columns },
}

// Whether there is at least one, and no more than `most`. Graphs test against one largest count, so their test has no parameter.
fn is_within(most: u32, count: u32) -> bool
    ensures { result ≡ within most count }
{
    (1..=most).contains(&count)
}

impl<'a> Sides<'a> {
    // Whether check u shares an even number of qubits with generator g.
    fn shares_even(&self, u: u32, g: u32) -> bool
        ensures { result ≡ shares_even self.now.checks.columns self.now.checks.bytes.now self.now.generators.bytes.now u g }
    {
        let check = self.checks.row(u);
        let generator = self.generators.row(g);
        (0..self.checks.columns)
            .filter(|v| contains(check, *v))
            .map(|v| contains(generator, v))
            .fold(true, |even, shared| even != shared)
    }

    // Whether check u does with each generator.
    fn shares_even_with_all(&self, u: u32) -> bool
        ensures { result ≡ all_below self.now.generators.rows (shares_even self.now.checks.columns self.now.checks.bytes.now self.now.generators.bytes.now u) }
    {
        (0..self.generators.rows).all(|g| self.shares_even(u, g))
    }

    // Whether each check does.
    fn all_share_even(&self) -> bool
        ensures { result ≡ all_below self.now.checks.rows (λ u. all_below self.now.generators.rows (shares_even self.now.checks.columns self.now.checks.bytes.now self.now.generators.bytes.now u)) }
    {
        (0..self.checks.rows).all(|u| self.shares_even_with_all(u))
    }

    // Asks the rows every question.
    fn ask(&self) -> Result<(), Refusal>
        ensures { result ≡ answer (first_no (written_questions self.now.checks.columns self.now.checks.rows self.now.generators.rows self.now.checks.bytes.now self.now.generators.bytes.now)) }
    {
        let Sides { checks, generators } = *self;
        if !is_within(MOST_QUBITS, checks.columns)
            || !is_within(MOST_ROWS, checks.rows)
            || !is_within(MOST_ROWS, generators.rows)
        {
            return Err(Refusal::CountOutOfRange);
        }
        if !checks.fits() || !generators.fits() {
            return Err(Refusal::WrongLength);
        }
        if !checks.unused_are_zero() || !generators.unused_are_zero() {
            return Err(Refusal::UnusedBitSet);
        }
        if !checks.is_sparse(MOST_WEIGHT) || !generators.is_sparse(MOST_WEIGHT) {
            return Err(Refusal::DegreeOutOfRange);
        }
        if !self.all_share_even() {
            return Err(Refusal::OddOverlap);
        }
        Ok(())
    }

    // The code of rows that were asked.
    fn build(self, heap: Global) -> Result<Written, Refusal>
        requires { first_no (written_questions self.checks.columns self.checks.rows self.generators.rows self.checks.bytes.now self.generators.bytes.now) ≡ None }
        ensures { MatchResult result (λ w. code_of w ≡ written_code self.entry.checks.columns self.entry.checks.rows self.entry.generators.rows self.entry.checks.bytes.now self.entry.generators.bytes.now) (λ e. e ≡ OutOfMemory) }
    {
        let checks = Sparse {
            relation: Relation::of(heap, self.checks)?,
        };
        let generators = Sparse {
            relation: Relation::of(heap, self.generators)?,
        };
        Ok(Written { checks, generators })
    }
}

// The code of the rows of its checks and of its generators.
pub fn make_code(
    heap: Global,
    qubits: u32,
    checks: Rows<'_>,
    generators: Rows<'_>,
) -> Result<Written, Refusal>
    ensures { MatchResult result
        (λ w. (written_refusal qubits checks.entry.count generators.entry.count checks.entry.bytes.now generators.entry.bytes.now ≡ None)
        × (code_of w ≡ written_code qubits checks.entry.count generators.entry.count checks.entry.bytes.now generators.entry.bytes.now))
        (λ e. e ≡ unwrap_or (written_refusal qubits checks.entry.count generators.entry.count checks.entry.bytes.now generators.entry.bytes.now) OutOfMemory) }
{
    let sides = Sides {
        checks: checks.over(qubits),
        generators: generators.over(qubits),
    };
    sides.ask()?;
    sides.build(heap)
}

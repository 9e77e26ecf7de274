// The reader of graph files.
ghost use Rattle.std.specs.Prelude.{◌≡◌, true, Some, None, MatchResult};
ghost use Rattle.std.specs.Option.{unwrap_or};
ghost use Rattle.refusals.specs.declared.Refusal.TheVariants.{OutOfMemory};
ghost use Rattle.refusals.specs.Questions.{first_no, answer};
ghost use Rattle.graphs.specs.Tanners.{counted};
ghost use Rattle.graph_files.specs.Held.{graph_of};
ghost use Rattle.graph_files.specs.Files.{variables_in, checks_in, rows_in, head_questions, row_questions, graph_refusal, rows_graph, graph_in, file_of};

use crate::matrix::Matrix;
use graphs::limits::{MOST_NEIGHBOURS, in_range};
use matrices::relation::Relation;
use matrices::rows::BitRows;
use matrices::sparse::Sparse;
use refusals::Refusal;
use std::alloc::Global;

const VERSION: u16 = 1;

// The rows of a graph file that was asked every question: a row for each check, a column for each variable.
#[derive(Clone, Copy)]
pub struct AskedGraph<'a> {
    pub matrix: BitRows<'a>,
    ghost checks_counted: { counted matrix.rows ≡ true },
    ghost variables_counted: { counted matrix.columns ≡ true },
    ghost accepted: { first_no (row_questions matrix.rows matrix.columns matrix.bytes.now) ≡ None },
}

// The rows after the head, and how many of which length the head tells.
fn read_head<'a>(file: &'a [u8]) -> Result<BitRows<'a>, Refusal>
    ensures { MatchResult result
        (λ m. (first_no (head_questions file.now) ≡ None)
        × (m.columns ≡ variables_in file.now)
        × (m.rows ≡ checks_in file.now)
        × (m.bytes.now ≡ rows_in file.now))
        (λ e. first_no (head_questions file.now) ≡ Some e) }
{
    let [t, a, n, v1, v0, n1, n0, m1, m0, rows @ ..] = file else {
        return Err(Refusal::HeadCutShort);
    };
    if [*t, *a, *n] != *b"TAN" {
        return Err(Refusal::WrongMark);
    }
    if u16::from_be_bytes([*v1, *v0]) != VERSION {
        return Err(Refusal::WrongVersion);
    }
    let variables = u32::from(u16::from_be_bytes([*n1, *n0]));
    let checks = u32::from(u16::from_be_bytes([*m1, *m0]));
    if !in_range(variables) || !in_range(checks) {
        return Err(Refusal::CountOutOfRange);
    }
    Ok(BitRows {
        rows: checks,
        columns: variables,
        bytes: rows,
    })
}

// Asks the rows for their length, their unused bits, and the degrees of checks and variables.
fn ask_rows(matrix: BitRows<'_>) -> Result<(), Refusal>
    ensures { result ≡ answer (first_no (row_questions matrix.entry.rows matrix.entry.columns matrix.entry.bytes.now)) }
{
    if !matrix.fits() {
        return Err(Refusal::WrongLength);
    }
    if !matrix.unused_are_zero() {
        return Err(Refusal::UnusedBitSet);
    }
    if !matrix.is_sparse(MOST_NEIGHBOURS) {
        return Err(Refusal::DegreeOutOfRange);
    }
    Ok(())
}

impl<'a> AskedGraph<'a> {
    // The graph of the rows.
    fn build(self, heap: Global) -> Result<Matrix, Refusal>
        ensures { MatchResult result (λ g. graph_of g ≡ rows_graph self.entry.matrix.rows self.entry.matrix.columns self.entry.matrix.bytes.now) (λ e. e ≡ OutOfMemory) }
    {
        let relation = Relation::of(heap, self.matrix)?;
        let edges = Sparse { relation };
        Ok(Matrix { edges })
    }
}

// Asks a file every question, and makes no graph of it.
pub fn ask_graph<'a>(file: &'a [u8]) -> Result<AskedGraph<'a>, Refusal>
    ensures { MatchResult result
        (λ g. (graph_refusal file.now ≡ None)
        × (g.matrix.columns ≡ variables_in file.now)
        × (g.matrix.rows ≡ checks_in file.now)
        × (g.matrix.bytes.now ≡ rows_in file.now))
        (λ e. graph_refusal file.now ≡ Some e) }
{
    let matrix = read_head(file)?;
    ask_rows(matrix)?;
    Ok(AskedGraph { matrix })
}

// The graph of a file.
pub fn read_graph(heap: Global, file: &[u8]) -> Result<Matrix, Refusal>
    ensures { MatchResult result
        (λ g. (graph_refusal file.now ≡ None) × (graph_of g ≡ graph_in file.now) × (file_of (graph_of g) ≡ file.now))
        (λ e. e ≡ unwrap_or (graph_refusal file.now) OutOfMemory) }
{
    ask_graph(file)?.build(heap)
}

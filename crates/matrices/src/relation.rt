// A relation between rows and columns, told from both sides.
ghost use Rattle.std.specs.Prelude.{◌≡◌, length, MatchResult};
ghost use Rattle.refusals.specs.declared.Refusal.TheVariants.{OutOfMemory};
ghost use Rattle.matrices.specs.Adjacent.{lists};
ghost use Rattle.matrices.specs.Relations.{tabled, transposed};
ghost use Rattle.matrices.specs.Rows.{entry, turned_entry};

use crate::lists::Lists;
use crate::rows::{BitColumns, BitRows};
use refusals::Refusal;
use std::alloc::Global;

#[derive(Drop)]
pub struct Relation {
    pub rows: Lists,
    pub columns: Lists,
    ghost by_row: { lists rows.nodes ≡ transposed (length (lists rows.nodes)) (lists columns.nodes) },
    ghost by_column: { lists columns.nodes ≡ transposed (length (lists columns.nodes)) (lists rows.nodes) },
}

impl Relation {
    // The relation of the rows of the matrix.
    pub fn of(heap: Global, matrix: BitRows<'_>) -> Result<Relation, Refusal>
        ensures { MatchResult result
            (λ x. (lists x.rows.nodes ≡ tabled matrix.entry.rows matrix.entry.columns (entry matrix.entry.columns matrix.entry.bytes.now))
            × (lists x.columns.nodes ≡ tabled matrix.entry.columns matrix.entry.rows (turned_entry matrix.entry.columns matrix.entry.bytes.now)))
            (λ e. e ≡ OutOfMemory) }
    {
        let rows = Lists::of(heap, &matrix, matrix.rows, matrix.columns)?;
        let columns = Lists::of(heap, &BitColumns { matrix }, matrix.columns, matrix.rows)?;
        Ok(Relation { rows, columns })
    }
}

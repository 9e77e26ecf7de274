// Relations in which no row and no column has many neighbours.
ghost use Rattle.std.specs.Prelude.{◌≡◌, true, length};
ghost use Rattle.matrices.specs.Adjacent.{lists};
ghost use Rattle.matrices.specs.Relations.{size_at, listed, short};

use crate::relation::Relation;

// A relation in which each row and each column has at most `MOST` neighbours.
#[derive(Drop)]
pub struct Sparse<const MOST: u32> {
    pub relation: Relation,
    ghost few_in_rows: { short MOST (lists relation.rows.nodes) ≡ true },
    ghost few_in_columns: { short MOST (lists relation.columns.nodes) ≡ true },
}

impl<const MOST: u32> Sparse<MOST> {
    // How many neighbours row u has.
    pub fn row_size(&self, u: u32) -> Option<u32>
        ensures { result ≡ size_at (length (lists self.now.relation.rows.nodes)) (listed (lists self.now.relation.rows.nodes)) u }
    {
        let size = self.relation.rows.size(u)?;
        Some(size as u32)
    }

    // How many neighbours column u has.
    pub fn column_size(&self, u: u32) -> Option<u32>
        ensures { result ≡ size_at (length (lists self.now.relation.columns.nodes)) (listed (lists self.now.relation.columns.nodes)) u }
    {
        let size = self.relation.columns.size(u)?;
        Some(size as u32)
    }
}

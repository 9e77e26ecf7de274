// A matrix of bits: rows that are patterns over the columns, one after another in the caller's bytes.
ghost use Rattle.std.specs.Prelude.{◌≡◌, ℕ};
ghost use Rattle.patterns.specs.Sets.{Set, tally};
ghost use Rattle.matrices.specs.Rows.{row, entry, turned_entry, just_rows, tidy_rows, few, sparse};

use patterns::items::contains;
use patterns::shapes::{unused_are_zero, width};

// What is joined to what: a relation between numbers.
pub trait Incidence {
    ghost joined: { Self → ℕ → Set };

    fn joins(&self, a: u32, b: u32) -> bool
        ensures { result ≡ joined self.now a b };
}

#[derive(Clone, Copy)]
pub struct BitRows<'a> {
    pub rows: u32,
    pub columns: u32,
    pub bytes: &'a [u8],
}

impl<'a> BitRows<'a> {
    // Row u; no bytes where there is no such row.
    pub fn row(&self, u: u32) -> &'a [u8]
        ensures { result.now ≡ row self.now.columns self.now.bytes.now u }
    {
        let width = width(self.columns);
        let all = self.bytes.len();
        let from = (width * u as usize).min(all);
        let to = (from + width).min(all);
        &self.bytes[from..to]
    }

    // Whether there are just the bytes of the rows.
    pub fn fits(&self) -> bool
        ensures { result ≡ just_rows self.now.rows self.now.columns self.now.bytes.now }
    {
        self.bytes.len() == self.rows as usize * width(self.columns)
    }

    // Whether the unused bits of each row are zero.
    pub fn unused_are_zero(&self) -> bool
        ensures { result ≡ tidy_rows self.now.rows self.now.columns self.now.bytes.now }
    {
        (0..self.rows).all(|u| unused_are_zero(self.row(u), self.columns))
    }

    // Whether each row and each column has at most `most` ones.
    pub fn is_sparse(&self, most: u32) -> bool
        ensures { result ≡ sparse most self.now.rows self.now.columns self.now.bytes.now }
    {
        joined_to_few(self, self.rows, self.columns, most)
            && joined_to_few(&BitColumns { matrix: *self }, self.columns, self.rows, most)
    }
}

// The rows of the matrix: which columns each has.
impl<'a> Incidence for BitRows<'a> {
    ghost joined = { λ m. entry m.columns m.bytes.now };

    fn joins(&self, a: u32, b: u32) -> bool {
        contains(self.row(a), b)
    }
}

// Its columns: which rows each has.
#[derive(Clone, Copy)]
pub struct BitColumns<'a> {
    pub matrix: BitRows<'a>,
}

impl<'a> Incidence for BitColumns<'a> {
    ghost joined = { λ m. turned_entry m.matrix.columns m.matrix.bytes.now };

    fn joins(&self, a: u32, b: u32) -> bool {
        contains(self.matrix.row(b), a)
    }
}

// How many of the first `columns` numbers are joined to `a`.
pub fn count_joined<M: Incidence>(m: &M, a: u32, columns: u32) -> u32
    ensures { result ≡ tally columns (M.joined m.now a) }
{
    (0..columns).filter(|b| m.joins(a, *b)).count() as u32
}

// Whether each of the first `rows` numbers is joined to at most `most` of the first `columns`.
pub fn joined_to_few<M: Incidence>(m: &M, rows: u32, columns: u32, most: u32) -> bool
    ensures { result ≡ few most rows columns (M.joined m.now) }
{
    (0..rows).all(|a| count_joined(m, a, columns) <= most)
}

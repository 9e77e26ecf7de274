// The parts of a job file.
ghost use Rattle.std.specs.Prelude.{◌+◌, ◌≤◌, length};
ghost use Rattle.job_files.specs.Parts.{Cut};
ghost use Rattle.job_files.specs.Sides.{SideRead};

use graph_files::matrix::Matrix;
use refusals::Refusal;

// Which code is decoded: the product of the graph with itself, or that product with checks and generators exchanged.
#[derive(Clone, Copy, PartialEq, Eq, Debug)]
pub enum Side {
    Product,
    ExchangedProduct,
}

// The side of each number.
impl TryFrom<u8> for Side {
    type Error = Refusal;

    ghost try_from_gives = { SideRead };

    fn try_from(number: u8) -> Result<Side, Refusal> {
        match number {
            0 => Ok(Side::Product),
            1 => Ok(Side::ExchangedProduct),
            _ => Err(Refusal::UnknownSide),
        }
    }
}

// Bytes of the caller's file, and the place in the file where they begin.
#[derive(Clone, Copy)]
pub struct Part<'a> {
    pub at: usize,
    pub bytes: &'a [u8],
}

impl<'a> Part<'a> {
    // The file's `size` bytes from `at` on.
    pub(crate) fn cut(file: &'a [u8], at: usize, size: usize) -> Part<'a>
        requires { at + size ≤ length file.now }
        ensures { Cut file.now at size result }
    {
        Part {
            at,
            bytes: &file[at..at + size],
        }
    }
}

// What a job file tells.
#[derive(Drop)]
pub struct JobFile<'a> {
    pub side: Side,
    pub graph: Matrix,
    pub graph_part: Part<'a>,
    pub syndrome: Part<'a>,
    pub erasure: Part<'a>,
}

// Two families of nodes as one, in two blocks.
ghost use Rattle.std.specs.Prelude.{◌≡◌, ◌+◌, ◌≤◌};
ghost use Rattle.products.specs.Pairs.{two_blocks, in_block};
ghost use Rattle.products.specs.Steps.{Light, most_pairs, short_two_blocks, short_in_block};

use matrices::families::Family;

// A family of few nodes, whose neighbours have small numbers.
pub trait Block: Family {
    ghost light: { (s : Self) → Light (Self.nodes s) (Self.rows s) };
}

// The same nodes twice: the neighbours of each in the first block, and then those in the second, whose numbers go on at `start`.
#[derive(Drop)]
pub struct TwoBlocks<One: Family, Two: Family> {
    pub start: u32,
    pub one: One,
    pub two: Two,
    ghost few: { start ≤ most_pairs },
    ghost same: { Two.nodes two ≡ One.nodes one },
}

impl<One: Block, Two: Block> Family for TwoBlocks<One, Two> {
    ghost nodes = { λ s. One.nodes s.one };

    ghost rows = { λ s. two_blocks s.start (One.rows s.one) (Two.rows s.two) };

    ghost short = { λ s. short_two_blocks s.start (One.Block.light s.one) (Two.Block.light s.two) s.same };

    fn count(&self) -> u32 {
        self.one.count()
    }

    fn size(&self, u: u32) -> Option<u32> {
        let left = self.one.size(u)?;
        let right = self.two.size(u)?;
        Some(left + right)
    }

    fn neighbour(&self, u: u32, k: u32) -> Option<u32> {
        let size = self.one.size(u)?;
        if k < size {
            return self.one.neighbour(u, k);
        }
        let v = self.two.neighbour(u, k - size)?;
        Some(self.start + v)
    }
}

// The nodes of one family, and then those of another.
#[derive(Drop)]
pub struct InBlock<One, Two> {
    pub one: One,
    pub two: Two,
}

impl<One: Block, Two: Block> Family for InBlock<One, Two> {
    ghost nodes = { λ s. One.nodes s.one + Two.nodes s.two };

    ghost rows = { λ s. in_block (One.nodes s.one) (One.rows s.one) (Two.rows s.two) };

    ghost short = { λ s. short_in_block (One.Block.light s.one) (Two.Block.light s.two) };

    fn count(&self) -> u32 {
        self.one.count() + self.two.count()
    }

    fn size(&self, v: u32) -> Option<u32> {
        let start = self.one.count();
        if v < start {
            return self.one.size(v);
        }
        self.two.size(v - start)
    }

    fn neighbour(&self, v: u32, k: u32) -> Option<u32> {
        let start = self.one.count();
        if v < start {
            return self.one.neighbour(v, k);
        }
        self.two.neighbour(v - start, k)
    }
}

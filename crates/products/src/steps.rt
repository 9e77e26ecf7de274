// Pairs of a node of one side of a graph and a node of another, by number: where the second side has w nodes, pair (a, b) is a * w + b.
ghost use Rattle.std.specs.Prelude.{◌*◌};
ghost use Rattle.products.specs.Pairs.{by_first, by_second};
ghost use Rattle.products.specs.Steps.{light_first, light_second, short_light};

use crate::blocks::Block;
use crate::sides::Side;
use matrices::families::Family;

// Pair (a, b) is joined to (v, b) for each v joined to a. A type of its own beside the next one: here a pair keeps its width, and there the width becomes that of the nodes across.
#[derive(Drop)]
pub struct FirstMoves<S, T> {
    pub first: S,
    pub second: T,
}

impl<S: Side, T: Side> Family for FirstMoves<S, T> {
    ghost nodes = { λ s. S.nodes s.first * T.nodes s.second };

    ghost rows = { λ s. by_first (T.nodes s.second) (S.rows s.first) };

    ghost short = { λ s. short_light (light_first (S.Side.sided s.first) (T.Side.sided s.second)) };

    fn count(&self) -> u32 {
        self.first.count() * self.second.count()
    }

    fn size(&self, x: u32) -> Option<u32> {
        self.first.size(x / self.second.count())
    }

    fn neighbour(&self, x: u32, k: u32) -> Option<u32> {
        let width = self.second.count();
        let v = self.first.neighbour(x / width, k)?;
        Some(v * width + x % width)
    }
}

impl<S: Side, T: Side> Block for FirstMoves<S, T> {
    ghost light = { λ s. light_first (S.Side.sided s.first) (T.Side.sided s.second) };
}

// Pair (a, b) is joined to (a, v) for each v joined to b.
#[derive(Drop)]
pub struct SecondMoves<S, T> {
    pub first: S,
    pub second: T,
}

impl<S: Side, T: Side> Family for SecondMoves<S, T> {
    ghost nodes = { λ s. S.nodes s.first * T.nodes s.second };

    ghost rows = { λ s. by_second (T.nodes s.second) (T.across s.second) (T.rows s.second) };

    ghost short = { λ s. short_light (light_second (S.Side.sided s.first) (T.Side.sided s.second)) };

    fn count(&self) -> u32 {
        self.first.count() * self.second.count()
    }

    fn size(&self, x: u32) -> Option<u32> {
        let width = self.second.count();
        if x / width >= self.first.count() {
            return None;
        }
        self.second.size(x % width)
    }

    fn neighbour(&self, x: u32, k: u32) -> Option<u32> {
        let width = self.second.count();
        if x / width >= self.first.count() {
            return None;
        }
        let v = self.second.neighbour(x % width, k)?;
        Some(x / width * self.second.across() + v)
    }
}

impl<S: Side, T: Side> Block for SecondMoves<S, T> {
    ghost light = { λ s. light_second (S.Side.sided s.first) (T.Side.sided s.second) };
}

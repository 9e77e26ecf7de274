// One family of nodes of a relation: the nodes of one kind, and the neighbours of each.
ghost use Rattle.std.specs.Prelude.{◌≡◌, ℕ, ◌^◌, ◌<◌, List, length, drop};
ghost use Rattle.std.specs.Iterator.{YieldsFirst, item_count};
ghost use Rattle.matrices.specs.Relations.{size_at, neighbour, neighbours};

pub trait Family {
    ghost nodes: { Self → ℕ };

    ghost rows: { Self → ℕ → List ℕ };

    // How many nodes there are.
    fn count(&self) -> u32
        ensures { result ≡ nodes self.now };

    // How many neighbours node u has.
    fn size(&self, u: u32) -> Option<u32>
        ensures { result ≡ size_at (nodes self.now) (rows self.now) u };

    // The k-th neighbour of node u.
    fn neighbour(&self, u: u32, k: u32) -> Option<u32>
        ensures { result ≡ neighbour (nodes self.now) (rows self.now) u k };

    ghost short: { (s : Self) (u : ℕ) → u < nodes s → length (rows s u) < 2 ^ 32 };
}

// The neighbours of a node, from the next one on.
#[derive(Drop)]
pub struct Neighbours<F> {
    pub family: F,
    pub node: u32,
    pub next: u32,
}

impl<F: Family> Neighbours<F> {
    // All neighbours of the node; none where there is no such node.
    pub fn of(family: F, node: u32) -> Neighbours<F>
        ensures { result ≡ record { family = family; node = node; next = 0 } }
    {
        Neighbours {
            family,
            node,
            next: 0,
        }
    }
}

impl<F: Family + Drop> Iterator for Neighbours<F> {
    type Item = u32;

    ghost next_gives = { YieldsFirst (λ s. drop s.next (neighbours (F.nodes s.family) (F.rows s.family) s.node)) };

    ghost remaining = { item_count (λ s. drop s.next (neighbours (F.nodes s.family) (F.rows s.family) s.node)) };

    fn next(&mut self) -> Option<u32> {
        // No further neighbour ends every scan.
        let Some(v) = self.family.neighbour(self.node, self.next) else {
            return None;
        };
        self.next += 1;
        Some(v)
    }
}

// For each of some numbered nodes the list of its neighbours.
ghost use Rattle.std.specs.Prelude.{◌≡◌, length, MatchResult};
ghost use Rattle.refusals.specs.declared.Refusal.TheVariants.{OutOfMemory};
ghost use Rattle.patterns.specs.Sets.{members};
ghost use Rattle.matrices.specs.Relations.{size_at, neighbour, listed, tabled};
ghost use Rattle.matrices.specs.Adjacent.{lists};

use crate::rows::Incidence;
use refusals::Refusal;
use std::alloc::Global;

#[derive(Drop)]
pub struct Lists {
    pub nodes: Vec<Vec<u32>>,
}

// Those of the first `columns` numbers that are joined to `a`, in rising order.
fn gather<M: Incidence>(heap: Global, m: &M, a: u32, columns: u32) -> Result<Vec<u32>, Refusal>
    ensures { MatchResult result (λ v. v.items ≡ members columns (M.joined m.now a)) (λ e. e ≡ OutOfMemory) }
{
    let list = (0..columns).filter(|b| m.joins(a, *b)).collect(heap)?;
    Ok(list)
}

impl Lists {
    // The lists of the first `rows` numbers over the first `columns`, in rising order.
    pub fn of<M: Incidence>(heap: Global, m: &M, rows: u32, columns: u32) -> Result<Lists, Refusal>
        ensures { MatchResult result (λ l. lists l.nodes ≡ tabled rows columns (M.joined m.now)) (λ e. e ≡ OutOfMemory) }
    {
        let mut nodes = Vec::new(heap);
        for a in 0..rows {
            nodes.push(gather(heap, m, a, columns)?)?;
        }
        Ok(Lists { nodes })
    }

    // How many nodes there are.
    pub fn count(&self) -> usize
        ensures { result ≡ length (lists self.now.nodes) }
    {
        self.nodes.len()
    }

    // How many neighbours node u has.
    pub fn size(&self, u: u32) -> Option<usize>
        ensures { result ≡ size_at (length (lists self.now.nodes)) (listed (lists self.now.nodes)) u }
    {
        let list = self.nodes.get(u as usize)?;
        Some(list.len())
    }

    // The k-th neighbour of node u.
    pub fn neighbour(&self, u: u32, k: u32) -> Option<u32>
        ensures { result ≡ neighbour (length (lists self.now.nodes)) (listed (lists self.now.nodes)) u k }
    {
        let list = self.nodes.get(u as usize)?;
        list.get(k as usize).copied()
    }
}

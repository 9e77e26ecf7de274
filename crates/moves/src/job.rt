// A job: what is left to explain, which qubits are open, the correction so far, and how many moves were accepted.
ghost use Rattle.std.specs.Prelude.{◌≡◌, ◌+◌, min};
ghost use Rattle.moves.specs.Jobs.{most_moves};

// The caller lends the patterns, and others may write to them between calls: so every call asks again whether they are patterns.
#[derive(Drop)]
pub struct Job<'a> {
    pub remaining: &'a mut [u8],
    pub opened: &'a mut [u8],
    pub correction: &'a mut [u8],
    pub moves: u32,
}

// The count after one more accepted move.
pub(crate) fn one_more(count: u32) -> u32
    ensures { result ≡ min (count + 1) most_moves }
{
    count.saturating_add(1)
}

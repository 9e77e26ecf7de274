// How large a graph may be.
ghost use Rattle.std.specs.Prelude.{◌≡◌};
ghost use Rattle.graphs.specs.Tanners.{counted};

// The largest number of variables, and of checks.
pub const MOST_NODES: u32 = 96;

// The largest degree of a variable or a check.
pub const MOST_NEIGHBOURS: u32 = 6;

// Whether there may be so many variables, or so many checks.
pub fn in_range(count: u32) -> bool
    ensures { result ≡ counted count }
{
    (1..=MOST_NODES).contains(&count)
}

// Writing a family of nodes into a table.
ghost use Rattle.std.specs.Prelude.{◌≡◌, ◌≤◌, MatchResult};
ghost use Rattle.refusals.specs.declared.Refusal.TheVariants.{OutOfMemory};
ghost use Rattle.matrices.specs.Relations.{neighbours};
ghost use Rattle.codes.specs.Layouts.{most_qubits};
ghost use Rattle.tabled_codes.specs.Rows.{lists, Light, rows_of};

use crate::table::{PLACES, Table};
use arrayvec::ArrayVec;
use matrices::families::{Family, Neighbours};
use refusals::Refusal;
use std::alloc::Global;

// The neighbours of node u.
fn gather<F: Family + Copy + Drop>(family: F, u: u32) -> ArrayVec<u32, PLACES>
    requires { Light (F.nodes family) (F.rows family) }
    ensures { result.items ≡ neighbours (F.nodes family) (F.rows family) u }
{
    let mut row = ArrayVec::new();
    for v in Neighbours::of(family, u) {
        row.push(v);
    }
    row
}

// The table of the family.
pub(crate) fn write_table<F: Family + Copy + Drop>(
    heap: Global,
    family: F,
) -> Result<Table, Refusal>
    requires few { F.nodes family ≤ most_qubits }
    requires light { Light (F.nodes family) (F.rows family) }
    ensures { MatchResult result (λ t. lists t.nodes ≡ rows_of (F.nodes family) (F.rows family)) (λ e. e ≡ OutOfMemory) }
{
    let nodes = (0..family.count())
        .map(|u| gather(family, u))
        .collect(heap)?;
    Ok(Table { nodes })
}

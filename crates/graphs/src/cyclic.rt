// Cyclic graphs: as many checks as variables, and check p is joined to the variables (p + shift) mod n.
ghost use Rattle.std.specs.Prelude.{◌≡◌, ◌<◌, true, cond, length, nat_lt, IfSome, Some, None, MatchResult};
ghost use Rattle.std.specs.List.{slice_get};
ghost use Rattle.std.specs.Option.{unwrap_or};
ghost use Rattle.refusals.specs.declared.Refusal.TheVariants.{OutOfMemory};
ghost use Rattle.graphs.specs.Tanners.{counted};
ghost use Rattle.graphs.specs.Cycles.{rising, shift_count, cyclic_refusal, cyclic};
ghost use Rattle.graphs.specs.Shifts.{wired_cyclic};

use crate::graph::{CheckNode, Graph, VariableNode};
use crate::limits::{MOST_NEIGHBOURS, in_range};
use refusals::Refusal;
use std::alloc::Global;

#[derive(Drop)]
pub struct Cyclic {
    count: u32,
    shifts: Vec<u32>,
    ghost in_range: { counted count ≡ true },
    ghost few: { shift_count shifts.items ≡ true },
    ghost rises: { rising count shifts.items ≡ true },
}

fn rises(shifts: &[u32], count: u32) -> bool
    ensures { result ≡ rising count shifts.now }
{
    let mut low = 0;
    for s in shifts {
        if *s < low || *s >= count {
            return false;
        }
        low = *s + 1;
    }
    true
}

impl Cyclic {
    // The graph of `count` variables and as many checks.
    pub fn new(heap: Global, count: u32, shifts: &[u32]) -> Result<Cyclic, Refusal>
        ensures { MatchResult result
            (λ g. (cyclic_refusal count shifts.now ≡ None) × (g.count ≡ count) × (g.shifts.items ≡ shifts.now))
            (λ e. e ≡ unwrap_or (cyclic_refusal count shifts.now) OutOfMemory) }
    {
        if !in_range(count) {
            return Err(Refusal::CountOutOfRange);
        }
        if shifts.is_empty() || shifts.len() > MOST_NEIGHBOURS as usize {
            return Err(Refusal::DegreeOutOfRange);
        }
        if !rises(shifts, count) {
            return Err(Refusal::ShiftsNotRising);
        }
        let shifts = Vec::from_slice(heap, shifts)?;
        Ok(Cyclic { count, shifts })
    }

    // How many neighbours node u has, a variable or a check.
    fn degree(&self, u: u32) -> Option<u32>
        ensures { result ≡ cond (nat_lt u self.now.count) (Some (length self.now.shifts.items)) None }
    {
        (u < self.count).then_some(self.shifts.len() as u32)
    }

    // The k-th shift, which is below the count.
    fn shift(&self, k: u32) -> Option<u32>
        ensures value { result ≡ slice_get self.now.shifts.items k }
        ensures bound { IfSome result (λ s. s < self.now.count) }
    {
        self.shifts.get(k as usize).copied()
    }
}

impl Graph for Cyclic {
    ghost tanner = { λ g. cyclic g.count g.shifts.items };

    ghost wired = { λ g. wired_cyclic g.count g.shifts.items g.in_range g.few g.rises };

    fn variables(&self) -> u32 {
        self.count
    }

    fn checks(&self) -> u32 {
        self.count
    }

    fn variable_degree(&self, v: VariableNode) -> Option<u32> {
        self.degree(v.0)
    }

    fn check_degree(&self, p: CheckNode) -> Option<u32> {
        self.degree(p.0)
    }

    fn variable_neighbour(&self, v: VariableNode, k: u32) -> Option<CheckNode> {
        if v.0 >= self.count {
            return None;
        }
        let shift = self.shift(k)?;
        Some(CheckNode((v.0 + (self.count - shift)) % self.count))
    }

    fn check_neighbour(&self, p: CheckNode, k: u32) -> Option<VariableNode> {
        if p.0 >= self.count {
            return None;
        }
        let shift = self.shift(k)?;
        Some(VariableNode((p.0 + shift) % self.count))
    }
}

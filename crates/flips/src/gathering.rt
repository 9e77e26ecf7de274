// The checks that meet the qubits of one generator: at most twelve of each qubit, so at most 144.
ghost use Rattle.std.specs.Prelude.{◌≡◌, ◌+◌, ◌<◌, ◌≤◌, [], length, take};
ghost use Rattle.flips.specs.Local.{gathered, local_checks};

use crate::opened::Opened;
use codes::code::{Code, Qubit};
use codes::families::ByCheck;
use matrices::families::Neighbours;

// That v is one of the code is required, since `Opened` hands on one qubit at a time.
// Adds the checks of v that are not among the first `count` yet; answers how many there are then.
fn gather<C: Code>(code: &C, v: Qubit, checks: &mut [u32], count: usize) -> usize
    requires v_bound { v.0 < (C.layout code.now).qubits }
    requires checks_len { length checks.old ≡ 144 }
    requires count_bound { count ≤ 132 }
    ensures is { take result checks.new ≡ gathered (take count checks.old) ((C.layout code.now).checks_of v.0) }
    ensures few { result ≤ count + 12 }
{
    let mut n = count;
    for u in Neighbours::of(ByCheck { code }, v.0) {
        if !checks[..n].contains(&u) {
            checks[n] = u;
            n += 1;
        }
    }
    n
}

impl<'a, C: Code> Opened<'a, C> {
    // The checks that meet the qubits, each once, in front of the array; answers how many they are.
    pub(crate) fn gather_checks(&self, checks: &mut [u32]) -> usize
        requires { length checks.old ≡ 144 }
        ensures is { take result checks.new ≡ local_checks (C.layout self.now.code.now) [] self.now.qubits.items }
        ensures few { result ≤ 144 }
    {
        let mut count = 0;
        for v in self.qubits.iter() {
            count = gather(self.code, Qubit(*v), checks, count);
        }
        count
    }
}

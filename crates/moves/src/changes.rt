// Changes of a pattern, and of the remaining syndrome.
ghost use Rattle.std.specs.Prelude.{◌≡◌, ◌<◌, true};
ghost use Rattle.std.specs.List.{All};
ghost use Rattle.patterns.specs.Sets.{has, Apart};
ghost use Rattle.patterns.specs.Patterns.{fitting, added, toggled_all};
ghost use Rattle.flips.specs.Flips.{remaining_after};

use codes::code::{Code, Qubit};
use codes::families::ByCheck;
use matrices::families::Neighbours;
use patterns::items::toggle;

// Changes every check of qubit v, which is one of the code: a number that keeps it would hold the code too, for one call.
// That the syndrome has its length stays required, here and below: it is a slice of the caller's, and a struct around it would be made for one call.
pub(crate) fn toggle_checks<C: Code>(code: &C, remaining: &mut [u8], v: Qubit)
    requires v_bound { v.0 < (C.layout code.now).qubits }
    requires fits { fitting (C.layout code.now).checks remaining.old ≡ true }
    ensures { remaining.new ≡ added (C.layout code.now).checks remaining.old (has ((C.layout code.now).checks_of v.0)) }
{
    for u in Neighbours::of(ByCheck { code }, v.0) {
        toggle(remaining, u);
    }
}

// Changes each item of the list.
pub(crate) fn toggle_all(bits: &mut [u8], items: &[u32])
    ensures { bits.new ≡ toggled_all bits.old items.now }
{
    for k in items {
        toggle(bits, *k);
    }
}

// Changes every check that holds an odd number of the qubits, which are numbers of the code for the same reason.
pub(crate) fn toggle_syndrome<C: Code>(code: &C, remaining: &mut [u8], qubits: &[u32])
    requires fits { fitting (C.layout code.now).checks remaining.old ≡ true }
    requires in_range { All (λ v. v < (C.layout code.now).qubits) qubits.now }
    requires apart { Apart qubits.now }
    ensures { remaining.new ≡ remaining_after (C.layout code.now) remaining.old qubits.now }
{
    for v in qubits {
        toggle_checks(code, remaining, Qubit(*v));
    }
}

// Sets of local checks as bits of three words: 144 checks take three of 64 bits.
ghost use Rattle.std.specs.Prelude.{◌≡◌, ◌*◌, ◌<◌, ◌≤◌, map, length, take, nat_eq, ◌==◌};
ghost use Rattle.std.specs.List.{position};
ghost use Rattle.patterns.specs.Sets.{has, Apart};
ghost use Rattle.patterns.specs.Patterns.{member};
ghost use Rattle.flips.specs.Local.{Marks, marked, one_if};

use best_sets::Words;
use codes::code::{Code, Qubit};
use codes::families::ByCheck;
use matrices::families::Neighbours;
use patterns::items::contains;

// That a qubit is one of the code, and that checks are few and apart, stays required here: the checks are a slice of a scratch array, which no type of ours owns.

// Place j marked, or no longer.
fn mark(words: &mut [u64], j: usize)
    requires { j < 64 * length words.old }
    ensures { words.new ≡ marked words.old j }
{
    words[j / 64] ^= 1 << (j % 64);
}

// Where u stands in the list.
fn place(list: &[u32], u: u32) -> Option<usize>
    ensures { result ≡ position (λ x. x == u) list.now }
{
    list.iter().position(|x| *x == u)
}

// The places of the checks of v among `checks`.
pub(crate) fn row<C: Code>(code: &C, v: Qubit, checks: &[u32]) -> Words
    requires v_bound { v.0 < (C.layout code.now).qubits }
    requires checks_len_bound { length checks.now ≤ 144 }
    requires apart { Apart checks.now }
    ensures { Marks checks.now (has ((C.layout code.now).checks_of v.0)) result }
{
    let mut words = [0; 3];
    for u in Neighbours::of(ByCheck { code }, v.0) {
        if let Some(j) = place(checks, u) {
            mark(&mut words, j);
        }
    }
    words
}

// For each check 1 where it is in the remaining syndrome, and 0 where it is not.
// Place by place, here and below: that the parities are plain numbers in a scratch array is a rule of the project.
pub(crate) fn read_parities(remaining: &[u8], checks: &[u32], parities: &mut [u32])
    requires { length checks.now ≤ length parities.old }
    ensures { take (length checks.now) parities.new ≡ map (λ u. one_if (member remaining.now u)) checks.now }
{
    for (j, u) in checks.iter().enumerate() {
        parities[j] = u32::from(contains(remaining, *u));
    }
}

// The places of the ones.
pub(crate) fn packed(parities: &[u32]) -> Words
    requires { length parities.now ≤ 144 }
    ensures { Marks parities.now (nat_eq 1) result }
{
    let mut words = [0; 3];
    for (j, parity) in parities.iter().enumerate() {
        if *parity == 1 {
            mark(&mut words, j);
        }
    }
    words
}

// Syndromes over any code.
#![tactic(auto)]

ghost use Rattle.std.specs.Prelude.{◌≡◌};
ghost use Rattle.refusals.specs.Questions.{first_no, answer, where_accepted};
ghost use Rattle.patterns.specs.Sets.{parity};
ghost use Rattle.patterns.specs.Patterns.{member};
ghost use Rattle.matrices.specs.Relations.{neighbours};
ghost use Rattle.syndromes.specs.Syndromes.{syndrome_questions, syndrome_pattern, alike_questions, alike_answer};

use codes::code::{Check, Code};
use codes::families::Checks;
use matrices::families::Neighbours;
use patterns::items::{contains, toggle};
use patterns::shapes::{fits, unused_are_zero};
use refusals::Refusal;

// Whether the check holds an odd number of the set's qubits; no, where there is no such check.
fn is_odd<C: Code>(code: &C, u: Check, set: &[u8]) -> bool
    ensures { result ≡ parity (member set.now) (neighbours (C.layout code.now).checks (C.layout code.now).of_check u.0) }
{
    let held = Neighbours::of(Checks { code }, u.0);
    // A flag that turns, and no count of what passes a filter: that asks for a jump at each qubit, and took three times as long on a code in tables.
    held.fold(false, |odd, v| odd != contains(set, v))
}

// Fills `out` with the syndrome of the set.
pub fn syndrome<C: Code>(code: &C, set: &[u8], out: &mut [u8]) -> Result<(), Refusal>
    ensures value { result ≡ answer (first_no (syndrome_questions (C.layout code.now) set.now out.old)) }
    ensures after { out.new ≡ where_accepted (first_no (syndrome_questions (C.layout code.now) set.now out.old)) (syndrome_pattern (C.layout code.now) set.now) out.old }
{
    if !fits(set, code.qubits()) || !fits(out, code.checks()) {
        return Err(Refusal::WrongPatternLength);
    }
    if !unused_are_zero(set, code.qubits()) {
        return Err(Refusal::UnusedBitSet);
    }
    out.fill(0);
    for u in 0..code.checks() {
        if is_odd(code, Check(u), set) {
            toggle(out, u);
        }
    }
    Ok(())
}

// Whether two corrections have the same syndrome.
pub fn alike<C: Code>(code: &C, one: &[u8], two: &[u8]) -> Result<bool, Refusal>
    ensures { result ≡ alike_answer (C.layout code.now) one.now two.now (first_no (alike_questions (C.layout code.now) one.now two.now)) }
{
    if !fits(one, code.qubits()) || !fits(two, code.qubits()) {
        return Err(Refusal::WrongPatternLength);
    }
    if !unused_are_zero(one, code.qubits()) || !unused_are_zero(two, code.qubits()) {
        return Err(Refusal::UnusedBitSet);
    }
    let same = |u| is_odd(code, Check(u), one) == is_odd(code, Check(u), two);
    Ok((0..code.checks()).all(same))
}

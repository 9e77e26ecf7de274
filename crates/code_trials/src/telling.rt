// Whether a code tells just the checks and the generators that are expected of it, from both sides.
use codes::code::Code;
use codes::families::{ByCheck, ByGenerator, Checks, Generators};
use codes::limits::MOST_WEIGHT;
use matrices::families::{Family, Neighbours};
use std::process::Abort;
use std::test::Fail;

// The qubits of each check and of each generator, in any order.
#[derive(Clone, Copy)]
pub struct Holds<'a> {
    pub letter: u8,
    pub qubits: u32,
    pub checks: &'a [&'a [u32]],
    pub generators: &'a [&'a [u32]],
}

// How often node u tells the neighbour v, at all places that there may be: also past one that tells none.
fn times_told<F: Family>(family: &F, u: u32, v: u32) -> usize {
    (0..MOST_WEIGHT)
        .filter(|k| family.neighbour(u, *k) == Some(v))
        .count()
}

// How often the iterator comes to it.
fn times_walked<F: Family + Copy>(family: F, u: u32, v: u32) -> usize {
    Neighbours::of(family, u).filter(|w| *w == v).count()
}

// Nothing is told of nodes that there are not, nor past the last neighbour of a node.
fn ends_tell_nothing<F: Family>(rt: &impl Abort, family: &F) -> Result<(), Fail> {
    for u in [family.count(), u32::MAX] {
        assert_eq!(rt; family.size(u), None);
        assert_eq!(rt; family.neighbour(u, 0), None);
    }
    for u in 0..family.count() {
        let last = family.size(u).ok_or("no size")?;
        assert_eq!(rt; family.neighbour(u, last), None, "{u}");
        assert_eq!(rt; family.neighbour(u, u32::MAX), None, "{u}");
    }
    Ok(())
}

// The rows are the checks or the generators, and back are the qubits by their rows.
fn rows_tell<R: Family + Copy, B: Family + Copy>(
    rt: &impl Abort,
    rows: R,
    back: B,
    expected: &[&[u32]],
) -> Result<(), Fail> {
    assert_eq!(rt; rows.count() as usize, expected.len());
    for (u, row) in (0..rows.count()).zip(expected.iter()) {
        let told = rows.size(u).ok_or("no size")?;
        assert_eq!(rt; told as usize, row.len(), "{u}");
        for v in 0..back.count() {
            let times = usize::from(row.contains(&v));
            assert_eq!(rt; times_told(&rows, u, v), times, "{u} and {v}");
            assert_eq!(rt; times_walked(rows, u, v), times, "{u} and {v}");
            assert_eq!(rt; times_told(&back, v, u), times, "{v} and {u}");
            assert_eq!(rt; times_walked(back, v, u), times, "{v} and {u}");
        }
    }
    for v in 0..back.count() {
        let with = expected.iter().filter(|row| row.contains(&v)).count();
        assert_eq!(rt; back.size(v).ok_or("no size")? as usize, with, "{v}");
    }
    ends_tell_nothing(rt, &rows)?;
    ends_tell_nothing(rt, &back)
}

// Each check shares an even number of qubits with each generator, as the code tells them.
fn overlaps_are_even<C: Code>(rt: &impl Abort, code: &C) {
    for u in 0..code.checks() {
        for g in 0..code.generators() {
            let shared = (0..code.qubits())
                .filter(|v| {
                    times_told(&Checks { code }, u, *v) == 1
                        && times_told(&Generators { code }, g, *v) == 1
                })
                .count();
            assert!(rt; shared % 2 == 0, "check {u} and generator {g}");
        }
    }
}

pub(crate) fn tells<C: Code>(rt: &impl Abort, code: &C, expected: Holds<'_>) -> Result<(), Fail> {
    assert_eq!(rt; C::LETTER, expected.letter);
    assert_eq!(rt; code.qubits(), expected.qubits);
    rows_tell(rt, Checks { code }, ByCheck { code }, expected.checks)?;
    rows_tell(
        rt,
        Generators { code },
        ByGenerator { code },
        expected.generators,
    )?;
    overlaps_are_even(rt, code);
    Ok(())
}

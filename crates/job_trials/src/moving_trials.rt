// Moves that are accepted, and what they leave.
use crate::trying::{Call, State, example_code, stands, tries};
use codes::code::{Check, Code, Generator, Qubit};
use moves::job::Job;
use std::process::Abort;
use std::test::Fail;

fn peels<C: Code>(
    rt: &impl Abort,
    code: &C,
    job: &mut Job<'_>,
    u: u32,
    answer: (u32, u8),
) -> Result<(), Fail> {
    let (Qubit(v), changed) = job.peel(code, Check(u)).ok().ok_or("refused")?;
    assert_eq!(rt; (v, changed), answer);
    Ok(())
}

// The syndrome {0, 2} with the erasure {0, 3, 9}: generator 0 is pruned at the qubit, and then the checks 0 and 2 are peeled.
fn decodes<C: Code>(
    rt: &impl Abort,
    code: &C,
    at: u32,
    first: (u32, u8),
    second: (u32, u8),
    expected: &[u8],
    case: usize,
) -> Result<(), Fail> {
    let mut remaining = *b"\xFF";
    let mut opened = *b"\xFF\xFF";
    let mut correction = *b"\xFF\xFF";
    let mut job = Job {
        remaining: &mut remaining,
        opened: &mut opened,
        correction: &mut correction,
        moves: 9,
    };
    assert!(rt; job.open(code, b"\x05", b"\x09\x02").is_ok());
    assert!(rt; job.prune(code, Generator(0), Qubit(at)).is_ok());
    peels(rt, code, &mut job, 0, first)?;
    peels(rt, code, &mut job, 2, second)?;
    let end = State {
        remaining: b"\x00",
        opened: b"\x00\x00",
        correction: expected,
        moves: 3,
    };
    stands(rt, &job, end, case);
    Ok(())
}

// The corrections {9} and {0, 3} differ by {0, 3, 9}, which is generator 0.
#[test]
fn a_generator_parts_what_two_prunes_lead_to(rt: HostRuntime) -> Result<(), Fail> {
    let code = example_code(rt.alloc())?;
    decodes(&rt, &code, 0, (9, 1), (3, 0), b"\x00\x02", 0)?;
    decodes(&rt, &code, 9, (0, 1), (3, 1), b"\x09\x00", 1)
}

#[test]
fn moves_change_what_they_say(rt: HostRuntime) -> Result<(), Fail> {
    let code = example_code(rt.alloc())?;
    // The remaining checks, the open qubits, the correction and the count; the call; and the same four after it.
    let cases: [(
        (&[u8], &[u8], &[u8], u32),
        Call<'_>,
        (&[u8], &[u8], &[u8], u32),
    ); 7] = [
        // a peeled check that remains, with the qubit outside the correction and in it, and one that does not remain
        (
            (b"\x05", b"\x08\x02", b"\x00\x00", 0),
            Call::Peel(0),
            (b"\x00", b"\x08\x00", b"\x00\x02", 1),
        ),
        (
            (b"\x05", b"\x08\x02", b"\x00\x02", 1),
            Call::Peel(0),
            (b"\x00", b"\x08\x00", b"\x00\x00", 2),
        ),
        (
            (b"\x04", b"\x08\x02", b"\x00\x02", 2),
            Call::Peel(0),
            (b"\x04", b"\x08\x00", b"\x00\x02", 3),
        ),
        // a prune leaves the correction, also where it has the qubit
        (
            (b"\x05", b"\x09\x02", b"\x09\x02", 4),
            Call::Prune(0, 9),
            (b"\x05", b"\x09\x00", b"\x09\x02", 5),
        ),
        // the largest count is reached, and stays
        (
            (b"\x05", b"\x09\x02", b"\x00\x00", u32::MAX - 1),
            Call::Prune(0, 0),
            (b"\x05", b"\x08\x02", b"\x00\x00", u32::MAX),
        ),
        (
            (b"\x05", b"\x09\x02", b"\x00\x00", u32::MAX),
            Call::Prune(0, 3),
            (b"\x05", b"\x01\x02", b"\x00\x00", u32::MAX),
        ),
        (
            (b"\x05", b"\x08\x02", b"\x00\x00", u32::MAX),
            Call::Peel(0),
            (b"\x00", b"\x08\x00", b"\x00\x02", u32::MAX),
        ),
    ];
    for (i, (before, call, after)) in cases.iter().enumerate() {
        tries(
            &rt,
            rt.alloc(),
            &code,
            state(*before),
            *call,
            None,
            state(*after),
            i,
        )?;
    }
    Ok(())
}

fn state<'a>(parts: (&'a [u8], &'a [u8], &'a [u8], u32)) -> State<'a> {
    let (remaining, opened, correction, moves) = parts;
    State {
        remaining,
        opened,
        correction,
        moves,
    }
}

// Flips: the best set of a generator's open qubits, its ties, and what it leaves.
use crate::trying::{Call, State, example_code, tries};
use codes::code::{Code, Generator, Qubit};
use graph_files::reading::read_graph;
use moves::job::Job;
use products::product::Product;
use std::alloc::Global;
use std::process::Abort;
use std::test::Fail;
use written_codes::making::{Rows, make_code};

// The remaining checks and the open qubits; the generator; the fall and the size; the remaining checks and the correction after it.
type Flipped<'a> = (&'a [u8], &'a [u8], u32, (u32, u32), &'a [u8], &'a [u8]);

fn flips<C: Code>(
    rt: &impl Abort,
    heap: Global,
    code: &C,
    cases: &[Flipped<'_>],
) -> Result<(), Fail> {
    for (i, (remaining, opened, g, answer, left, corrected)) in cases.iter().enumerate() {
        let mut bits = Vec::from_slice(heap, *remaining)?;
        let mut open = Vec::from_slice(heap, *opened)?;
        let mut correction = Vec::from_slice(heap, *opened)?;
        correction.fill(0);
        let mut job = Job {
            remaining: bits.as_mut_slice(),
            opened: open.as_mut_slice(),
            correction: correction.as_mut_slice(),
            moves: 3,
        };
        let told = job.flip(code, Generator(*g)).ok().ok_or("refused")?;
        assert_eq!(rt; told, *answer, "case {i}");
        let after = State {
            remaining: *left,
            opened: *opened,
            correction: *corrected,
            moves: 4,
        };
        crate::trying::stands(rt, &job, after, i);
    }
    Ok(())
}

#[test]
fn the_best_set_is_flipped(rt: HostRuntime) -> Result<(), Fail> {
    let cases: [Flipped<'_>; 6] = [
        // generators 0, 1 and 2 each have one open qubit: it lies in one check that remains, in two, in one
        (b"\x03", b"\x07\x00", 0, (1, 1), b"\x02", b"\x01\x00"),
        (b"\x03", b"\x07\x00", 1, (2, 1), b"\x00", b"\x02\x00"),
        (b"\x03", b"\x07\x00", 2, (1, 1), b"\x01", b"\x04\x00"),
        // {0} and {3, 9} leave nothing: the smaller set
        (b"\x01", b"\x09\x02", 0, (1, 1), b"\x00", b"\x01\x00"),
        // {1, 9} and {4, 10} leave nothing: the smaller first qubit
        (b"\x06", b"\x12\x06", 1, (2, 2), b"\x00", b"\x02\x02"),
        // {4} lowers the weight by 2, {9, 10} by 4: the greater fall, though of more qubits
        (b"\x0F", b"\x10\x06", 1, (4, 2), b"\x00", b"\x00\x06"),
    ];
    flips(&rt, rt.alloc(), &example_code(rt.alloc())?, &cases)
}

// Four qubits, of which qubit 3 lies in nothing; the checks {0, 1}, {} and {0, 1} again; the generators {0, 1, 2}, {} and {0, 1, 2} again.
#[test]
fn repeated_and_empty_rows_are_flipped_too(rt: HostRuntime) -> Result<(), Fail> {
    let checks = Rows {
        count: 3,
        bytes: b"\x03\x00\x03",
    };
    let generators = Rows {
        count: 3,
        bytes: b"\x07\x00\x07",
    };
    let code = make_code(rt.alloc(), 4, checks, generators)
        .ok()
        .ok_or("refused")?;
    let cases: [Flipped<'_>; 2] = [
        // {0}, {1}, {0, 2} and {1, 2} leave nothing
        (b"\x05", b"\x0F", 0, (2, 1), b"\x00", b"\x01"),
        (b"\x05", b"\x0E", 2, (2, 1), b"\x00", b"\x02"),
    ];
    flips(&rt, rt.alloc(), &code, &cases)?;
    let stuck = State {
        remaining: b"\x02",
        opened: b"\x0F",
        correction: b"\x00",
        moves: 0,
    };
    tries(
        &rt,
        rt.alloc(),
        &code,
        stuck,
        Call::Flip(0),
        Some(16),
        stuck,
        2,
    )?;
    tries(
        &rt,
        rt.alloc(),
        &code,
        stuck,
        Call::Flip(1),
        Some(16),
        stuck,
        3,
    )?;
    tries(
        &rt,
        rt.alloc(),
        &code,
        stuck,
        Call::Prune(1, 0),
        Some(14),
        stuck,
        4,
    )?;
    tries(
        &rt,
        rt.alloc(),
        &code,
        stuck,
        Call::Peel(1),
        Some(13),
        stuck,
        5,
    )?;
    // both checks of qubit 0 remain, and both change with it
    let before = State {
        remaining: b"\x05",
        opened: b"\x0D",
        correction: b"\x00",
        moves: 0,
    };
    let after = State {
        remaining: b"\x00",
        opened: b"\x0C",
        correction: b"\x01",
        moves: 1,
    };
    tries(
        &rt,
        rt.alloc(),
        &code,
        before,
        Call::Peel(2),
        None,
        after,
        6,
    )
}

// A graph of one variable and one check that are not joined: two qubits, one check and one generator, both empty.
#[test]
fn empty_generators_allow_no_move(rt: HostRuntime) -> Result<(), Fail> {
    let graph = read_graph(rt.alloc(), b"TAN\x00\x01\x00\x01\x00\x01\x00")
        .ok()
        .ok_or("refused")?;
    let code = Product::of(graph);
    let state = State {
        remaining: b"\x01",
        opened: b"\x03",
        correction: b"\x00",
        moves: 0,
    };
    tries(
        &rt,
        rt.alloc(),
        &code,
        state,
        Call::Flip(0),
        Some(16),
        state,
        0,
    )?;
    tries(
        &rt,
        rt.alloc(),
        &code,
        state,
        Call::Prune(0, 0),
        Some(14),
        state,
        1,
    )?;
    tries(
        &rt,
        rt.alloc(),
        &code,
        state,
        Call::Peel(0),
        Some(13),
        state,
        2,
    )
}

// Generator 0 is flipped at qubit 0 and then pruned there: the correction keeps the qubit.
#[test]
fn a_prune_keeps_what_a_flip_did(rt: HostRuntime) -> Result<(), Fail> {
    let code = example_code(rt.alloc())?;
    let mut remaining = *b"\x01";
    let mut opened = *b"\x09\x02";
    let mut correction = *b"\x00\x00";
    let mut job = Job {
        remaining: &mut remaining,
        opened: &mut opened,
        correction: &mut correction,
        moves: 0,
    };
    assert!(rt; job.flip(&code, Generator(0)).is_ok());
    assert!(rt; job.prune(&code, Generator(0), Qubit(0)).is_ok());
    let after = State {
        remaining: b"\x00",
        opened: b"\x08\x02",
        correction: b"\x01\x00",
        moves: 2,
    };
    crate::trying::stands(&rt, &job, after, 0);
    Ok(())
}

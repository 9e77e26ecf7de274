// Runs and verdicts on examples that were worked out by hand.
use crate::trying::{State, example_code, example_graph, stands};
use codes::bare::Bare;
use codes::code::Code;
use codes::exchanged::Exchanged;
use graphs::cyclic::Cyclic;
use jobs::run::run;
use jobs::verdict::verdict;
use moves::job::Job;
use products::product::Product;
use std::alloc::Global;
use std::process::Abort;
use std::test::Fail;

// A syndrome and an erasure; the verdict on opening; the peels, prunes and flips of a run and the verdict after it; the remaining syndrome, the open set and the correction then.
type Ran<'a> = (
    &'a [u8],
    &'a [u8],
    &'a [u8],
    (u32, u32, u32, &'a [u8]),
    &'a [u8],
    &'a [u8],
    &'a [u8],
);

fn told<C: Code>(
    rt: &impl Abort,
    code: &C,
    job: &Job<'_>,
    word: &[u8],
    case: usize,
) -> Result<(), Fail> {
    let verdict = verdict(code, job).ok().ok_or("refused")?;
    assert_eq!(rt; verdict.word().as_bytes(), word, "case {case}");
    Ok(())
}

fn runs<C: Code>(rt: &impl Abort, heap: Global, code: &C, cases: &[Ran<'_>]) -> Result<(), Fail> {
    for (i, (syndrome, erasure, first, end, left, opened, corrected)) in cases.iter().enumerate() {
        let mut bits = Vec::from_slice(heap, *syndrome)?;
        let mut open = Vec::from_slice(heap, *erasure)?;
        let mut correction = Vec::from_slice(heap, *erasure)?;
        let mut job = Job {
            remaining: bits.as_mut_slice(),
            opened: open.as_mut_slice(),
            correction: correction.as_mut_slice(),
            moves: 5,
        };
        assert!(rt; job.open(code, *syndrome, *erasure).is_ok());
        told(rt, code, &job, *first, i)?;
        let ran = run(code, &mut job).ok().ok_or("refused")?;
        let (peels, prunes, flips, word) = *end;
        assert_eq!(rt;
            (ran.peels, ran.prunes, ran.flips),
            (peels, prunes, flips),
            "case {i}"
        );
        assert_eq!(rt; ran.verdict.word().as_bytes(), word, "case {i}");
        let after = State {
            remaining: *left,
            opened: *opened,
            correction: *corrected,
            moves: peels.saturating_add(prunes).saturating_add(flips),
        };
        stands(rt, &job, after, i);
        told(rt, code, &job, word, i)?;
    }
    Ok(())
}

#[test]
fn runs_end_where_no_move_applies(rt: HostRuntime) -> Result<(), Fail> {
    let cases: [Ran<'_>; 6] = [
        // a prune and two peels
        (
            b"\x05",
            b"\x09\x02",
            b"moving",
            (2, 1, 0, b"settled"),
            b"\x00",
            b"\x00\x00",
            b"\x00\x02",
        ),
        // check 1 has no open qubit; check 0 is peeled all the same
        (
            b"\x02",
            b"\x01\x00",
            b"contradicted",
            (1, 0, 0, b"contradicted"),
            b"\x02",
            b"\x00\x00",
            b"\x00\x00",
        ),
        // no check dangles and no generator is all open: two flips, and the qubits stay open
        (
            b"\x03",
            b"\x07\x00",
            b"moving",
            (0, 0, 2, b"matched"),
            b"\x00",
            b"\x07\x00",
            b"\x05\x00",
        ),
        // the same qubits with nothing to explain
        (
            b"\x00",
            b"\x07\x00",
            b"matched",
            (0, 0, 0, b"matched"),
            b"\x00",
            b"\x07\x00",
            b"\x00\x00",
        ),
        // nothing at all
        (
            b"\x00",
            b"\x00\x00",
            b"settled",
            (0, 0, 0, b"settled"),
            b"\x00",
            b"\x00\x00",
            b"\x00\x00",
        ),
        // nothing open, and something to explain
        (
            b"\x01",
            b"\x00\x00",
            b"contradicted",
            (0, 0, 0, b"contradicted"),
            b"\x01",
            b"\x00\x00",
            b"\x00\x00",
        ),
    ];
    runs(&rt, rt.alloc(), &example_code(rt.alloc())?, &cases)
}

// The product of the ring of three: check 0 holds the qubits 0 and 1 of the first row, and every check meets that row in two.
#[test]
fn a_ring_stalls(rt: HostRuntime) -> Result<(), Fail> {
    let graph = Cyclic::new(rt.alloc(), 3, &[0, 1]).ok().ok_or("refused")?;
    let code = Product::of(graph);
    let cases: [Ran<'_>; 1] = [(
        b"\x01\x00",
        b"\x07\x00\x00",
        b"stalled",
        (0, 0, 0, b"stalled"),
        b"\x01\x00",
        b"\x07\x00\x00",
        b"\x00\x00\x00",
    )];
    runs(&rt, rt.alloc(), &code, &cases)
}

// Without checks nothing is ever to be explained: the generators {0, 1} and {1, 2} are pruned at 0 and at 1, and qubit 2 stays open.
#[test]
fn without_checks_runs_still_prune(rt: HostRuntime) -> Result<(), Fail> {
    let code = Exchanged {
        code: Bare {
            graph: example_graph(rt.alloc())?,
        },
    };
    let cases: [Ran<'_>; 2] = [
        (
            b"",
            b"\x07",
            b"moving",
            (0, 2, 0, b"matched"),
            b"",
            b"\x04",
            b"\x00",
        ),
        (
            b"",
            b"\x00",
            b"settled",
            (0, 0, 0, b"settled"),
            b"",
            b"\x00",
            b"\x00",
        ),
    ];
    runs(&rt, rt.alloc(), &code, &cases)
}

// The three patterns of a job, and the number of the question that a run and the question for the verdict answer with no.
#[test]
fn runs_and_verdicts_ask_in_order(rt: HostRuntime) -> Result<(), Fail> {
    let code = example_code(rt.alloc())?;
    let cases: [(&[u8], &[u8], &[u8], u8); 7] = [
        (b"", b"\x09\x02", b"\x00\x00", 11),
        (b"\x05", b"\x09\x02\x00", b"\x00\x00", 11),
        (b"\x05", b"\x09\x02", b"\x00", 11),
        (b"\x45", b"\x09\x22", b"\x00", 11),
        (b"\x45", b"\x09\x02", b"\x00\x00", 6),
        (b"\x05", b"\x09\x22", b"\x00\x00", 6),
        (b"\x05", b"\x09\x02", b"\x00\x20", 6),
    ];
    for (i, (remaining, opened, corrected, number)) in cases.iter().enumerate() {
        let mut bits = Vec::from_slice(rt.alloc(), *remaining)?;
        let mut open = Vec::from_slice(rt.alloc(), *opened)?;
        let mut correction = Vec::from_slice(rt.alloc(), *corrected)?;
        let mut job = Job {
            remaining: bits.as_mut_slice(),
            opened: open.as_mut_slice(),
            correction: correction.as_mut_slice(),
            moves: 8,
        };
        let asked = verdict(&code, &job).err().ok_or("accepted")?;
        assert_eq!(rt; asked.number(), *number, "case {i}");
        let ran = run(&code, &mut job).err().ok_or("accepted")?;
        assert_eq!(rt; ran.number(), *number, "case {i}");
        let same = State {
            remaining: *remaining,
            opened: *opened,
            correction: *corrected,
            moves: 8,
        };
        stands(&rt, &job, same, i);
    }
    Ok(())
}

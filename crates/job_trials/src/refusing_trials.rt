// Calls that are refused: which question is answered first with no, and that the job stays as it was.
use crate::trying::{Call, State, example_code, example_graph, tries};
use codes::bare::Bare;
use codes::code::Code;
use codes::exchanged::Exchanged;
use std::alloc::Global;
use std::process::Abort;
use std::test::Fail;

// The remaining checks, the open qubits and the correction; the call, and the number of its refusal.
fn refuses<'x, C: Code>(
    rt: &impl Abort,
    heap: Global,
    code: &C,
    cases: &[(&'x [u8], &'x [u8], &'x [u8], Call<'x>, u8)],
) -> Result<(), Fail> {
    for (i, (remaining, opened, correction, call, number)) in cases.iter().enumerate() {
        let state = State {
            remaining: *remaining,
            opened: *opened,
            correction: *correction,
            moves: 7,
        };
        tries(rt, heap, code, state, *call, Some(*number), state, i)?;
    }
    Ok(())
}

#[test]
fn opening_asks_in_order(rt: HostRuntime) -> Result<(), Fail> {
    let cases: [(&[u8], &[u8], &[u8], Call<'_>, u8); 8] = [
        // each of the five lengths, and a length before the unused bits
        (
            b"\xFF",
            b"\xFF\xFF",
            b"\xFF\xFF",
            Call::Open(b"", b"\x09\x02"),
            11,
        ),
        (
            b"\xFF",
            b"\xFF\xFF",
            b"\xFF\xFF",
            Call::Open(b"\x05", b"\x09"),
            11,
        ),
        (
            b"",
            b"\xFF\xFF",
            b"\xFF\xFF",
            Call::Open(b"\x05", b"\x09\x02"),
            11,
        ),
        (
            b"\xFF",
            b"\xFF\xFF\xFF",
            b"\xFF\xFF",
            Call::Open(b"\x05", b"\x09\x02"),
            11,
        ),
        (
            b"\xFF",
            b"\xFF\xFF",
            b"\xFF",
            Call::Open(b"\x05", b"\x09\x02"),
            11,
        ),
        (
            b"\xFF",
            b"\xFF\xFF",
            b"\xFF",
            Call::Open(b"\x45", b"\x09\x22"),
            11,
        ),
        // the first unused bit of the syndrome, and of the erasure
        (
            b"\xFF",
            b"\xFF\xFF",
            b"\xFF\xFF",
            Call::Open(b"\x45", b"\x09\x02"),
            6,
        ),
        (
            b"\xFF",
            b"\xFF\xFF",
            b"\xFF\xFF",
            Call::Open(b"\x05", b"\x09\x22"),
            6,
        ),
    ];
    refuses(&rt, rt.alloc(), &example_code(rt.alloc())?, &cases)
}

#[test]
fn peel_asks_in_order(rt: HostRuntime) -> Result<(), Fail> {
    let cases: [(&[u8], &[u8], &[u8], Call<'_>, u8); 13] = [
        // each of the three lengths, and a length before the unused bits
        (b"", b"\x09\x02", b"\x00\x00", Call::Peel(0), 11),
        (b"\x05\x00", b"\x09\x02", b"\x00\x00", Call::Peel(0), 11),
        (b"\x05", b"\x09", b"\x00\x00", Call::Peel(0), 11),
        (b"\x05", b"\x09\x02", b"\x00\x00\x00", Call::Peel(0), 11),
        (b"\x45", b"\x09\x22", b"\x00", Call::Peel(6), 11),
        // an unused bit of each, also before the number
        (b"\x45", b"\x09\x02", b"\x00\x00", Call::Peel(0), 6),
        (b"\x05", b"\x09\x22", b"\x00\x00", Call::Peel(0), 6),
        (b"\x05", b"\x09\x02", b"\x00\x80", Call::Peel(6), 6),
        (b"\x05", b"\x09\x02", b"\x00\x00", Call::Peel(6), 12),
        (b"\x05", b"\x09\x02", b"\x00\x00", Call::Peel(u32::MAX), 12),
        // two open qubits, and none
        (b"\x05", b"\x09\x02", b"\x00\x00", Call::Peel(0), 13),
        (b"\x05", b"\x09\x02", b"\x00\x00", Call::Peel(1), 13),
        (b"\x05", b"\x00\x00", b"\x00\x00", Call::Peel(0), 13),
    ];
    refuses(&rt, rt.alloc(), &example_code(rt.alloc())?, &cases)
}

#[test]
fn prune_asks_in_order(rt: HostRuntime) -> Result<(), Fail> {
    let cases: [(&[u8], &[u8], &[u8], Call<'_>, u8); 13] = [
        // each of the three lengths, once before the unused bits
        (b"", b"\x09\x02", b"\x00\x00", Call::Prune(0, 0), 11),
        (b"\x05", b"\x09\x02\x00", b"\x00\x00", Call::Prune(0, 0), 11),
        (b"\x45", b"\x09\x22", b"", Call::Prune(6, 0), 11),
        // an unused bit of each, once before the numbers
        (b"\x45", b"\x09\x02", b"\x00\x00", Call::Prune(6, 13), 6),
        (b"\x05", b"\x09\x22", b"\x00\x00", Call::Prune(0, 0), 6),
        (b"\x05", b"\x09\x02", b"\x00\x20", Call::Prune(0, 0), 6),
        // either number
        (b"\x05", b"\x09\x02", b"\x00\x00", Call::Prune(6, 0), 12),
        (b"\x05", b"\x09\x02", b"\x00\x00", Call::Prune(0, 13), 12),
        // a qubit outside the generator, also of one that is not all open
        (b"\x05", b"\x09\x02", b"\x00\x00", Call::Prune(0, 1), 14),
        (b"\x05", b"\x09\x02", b"\x00\x00", Call::Prune(1, 0), 14),
        // a generator with one open qubit, one with all but the qubit, and one with all but another
        (b"\x05", b"\x09\x02", b"\x00\x00", Call::Prune(1, 9), 15),
        (b"\x05", b"\x08\x02", b"\x00\x00", Call::Prune(0, 0), 15),
        (b"\x05", b"\x09\x00", b"\x00\x00", Call::Prune(0, 0), 15),
    ];
    refuses(&rt, rt.alloc(), &example_code(rt.alloc())?, &cases)
}

#[test]
fn flip_asks_in_order(rt: HostRuntime) -> Result<(), Fail> {
    let cases: [(&[u8], &[u8], &[u8], Call<'_>, u8); 12] = [
        // each of the three lengths, once before the unused bits
        (b"\x05\x00", b"\x09\x02", b"\x00\x00", Call::Flip(0), 11),
        (b"\x05", b"\x09", b"\x00\x00", Call::Flip(0), 11),
        (b"\x45", b"\x09\x22", b"", Call::Flip(6), 11),
        // an unused bit of each, once before the number
        (b"\x45", b"\x09\x02", b"\x00\x00", Call::Flip(6), 6),
        (b"\x05", b"\x09\x22", b"\x00\x00", Call::Flip(0), 6),
        (b"\x05", b"\x09\x02", b"\x00\x20", Call::Flip(0), 6),
        (b"\x05", b"\x09\x02", b"\x00\x00", Call::Flip(6), 12),
        (b"\x05", b"\x09\x02", b"\x00\x00", Call::Flip(u32::MAX), 12),
        // nothing remains; the generator has no open qubit; its one open qubit would raise the weight, or keep it
        (b"\x00", b"\x09\x02", b"\x00\x00", Call::Flip(0), 16),
        (b"\x05", b"\x09\x02", b"\x00\x00", Call::Flip(5), 16),
        (b"\x02", b"\x01\x00", b"\x00\x00", Call::Flip(0), 16),
        (b"\x01", b"\x02\x00", b"\x00\x00", Call::Flip(1), 16),
    ];
    refuses(&rt, rt.alloc(), &example_code(rt.alloc())?, &cases)
}

// The graph's code with checks and generators exchanged: 3 qubits, no checks, and the generators {0, 1} and {1, 2}.
#[test]
fn without_checks_no_peel_is_accepted(rt: HostRuntime) -> Result<(), Fail> {
    let graph = example_graph(rt.alloc())?;
    let code = Exchanged {
        code: Bare { graph },
    };
    let cases: [(&[u8], &[u8], &[u8], Call<'_>, u8); 5] = [
        (b"", b"\x07", b"\x00", Call::Peel(0), 12),
        (b"", b"\x07", b"\x00", Call::Peel(u32::MAX), 12),
        (b"\x00", b"\x07", b"\x00", Call::Peel(0), 11),
        (b"", b"\x07", b"\x00", Call::Open(b"\x00", b"\x07"), 11),
        (b"", b"\x03", b"\x00", Call::Prune(1, 2), 15),
    ];
    refuses(&rt, rt.alloc(), &code, &cases)?;
    let before = State {
        remaining: b"",
        opened: b"\x07",
        correction: b"\x04",
        moves: 0,
    };
    let after = State {
        remaining: b"",
        opened: b"\x03",
        correction: b"\x04",
        moves: 1,
    };
    tries(
        &rt,
        rt.alloc(),
        &code,
        before,
        Call::Prune(1, 2),
        None,
        after,
        0,
    )
}

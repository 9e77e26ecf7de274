// Codes that are written out: which question the rows answer first with no, and what accepted rows tell.
use crate::product_trials::EXAMPLE_PRODUCT;
use crate::telling::{Holds, tells};
use std::alloc::Global;
use std::process::Abort;
use std::test::Fail;
use written_codes::making::{Rows, make_code};

// The qubits, the rows of the checks and of the generators, each with its count, and the number of the question that they answer with no.
type Asked<'a> = (u32, u32, &'a [u8], u32, &'a [u8], Option<u8>);

fn answers(rt: &impl Abort, heap: Global, cases: &[Asked<'_>]) {
    for (i, (qubits, m, checks, k, generators, number)) in cases.iter().enumerate() {
        let made = make_code(
            heap,
            *qubits,
            Rows {
                count: *m,
                bytes: *checks,
            },
            Rows {
                count: *k,
                bytes: *generators,
            },
        );
        let refused = made.err().map(|refusal| refusal.number());
        assert_eq!(rt; refused, *number, "case {i}");
    }
}

#[test]
fn counts_and_lengths_are_asked_first(rt: HostRuntime) {
    let cases: [Asked<'_>; 22] = [
        (1, 1, b"\x00", 1, b"\x01", None),
        (2, 1, b"\x03", 1, b"\x03", None),
        // from 1 to 256 qubits, and from 1 to 128 rows
        (0, 1, b"", 1, b"", Some(4)),
        (256, 1, &[0; 32], 1, &[0; 32], None),
        (257, 1, &[0; 33], 1, &[0; 33], Some(4)),
        (u32::MAX, u32::MAX, b"", u32::MAX, b"", Some(4)),
        (2, 0, b"", 1, b"\x03", Some(4)),
        (2, 1, b"\x03", 0, b"", Some(4)),
        (2, 128, &[0; 128], 128, &[0; 128], None),
        (2, 129, &[0; 129], 1, b"\x03", Some(4)),
        (2, 1, b"\x03", 129, &[0; 129], Some(4)),
        // a wrong count of the generators before a wrong length of the checks
        (2, 1, b"", 0, b"", Some(4)),
        (0, 1, b"\xFF", 1, b"\x01", Some(4)),
        // a byte too few and a byte too many of either
        (2, 1, b"", 1, b"\x03", Some(5)),
        (2, 1, b"\x03\x00", 1, b"\x03", Some(5)),
        (2, 1, b"\x03", 1, b"", Some(5)),
        (2, 1, b"\x03", 1, b"\x03\x00", Some(5)),
        (9, 1, b"\x03", 1, b"\x03\x00", Some(5)),
        (2, 2, b"\x03", 1, b"\x03", Some(5)),
        // a wrong length before an unused bit, and before an odd overlap
        (2, 1, b"\xFF", 1, b"", Some(5)),
        (2, 1, b"\xFF\xFF", 1, b"\x03", Some(5)),
        (2, 1, b"\x01", 1, b"\x01\x00", Some(5)),
    ];
    answers(&rt, rt.alloc(), &cases);
}

// Twelve rows of twelve ones.
const FULL: &[u8; 24] =
    b"\xFF\x0F\xFF\x0F\xFF\x0F\xFF\x0F\xFF\x0F\xFF\x0F\xFF\x0F\xFF\x0F\xFF\x0F\xFF\x0F\xFF\x0F\xFF\x0F";

#[test]
fn unused_bits_and_weights_are_asked_next(rt: HostRuntime) {
    let cases: [Asked<'_>; 19] = [
        // an unused bit of either, of the last row, and of a second byte
        (2, 1, b"\x07", 1, b"\x03", Some(6)),
        (2, 1, b"\x03", 1, b"\x83", Some(6)),
        (2, 2, b"\x03\x04", 1, b"\x03", Some(6)),
        (9, 1, b"\x00\x02", 1, b"\x00\x00", Some(6)),
        // an unused bit before a row of 13 and before an odd overlap
        (13, 1, b"\xFF\xFF", 1, b"\x00\x00", Some(6)),
        (13, 1, b"\xFF\x1F", 1, b"\x00\x20", Some(6)),
        (2, 1, b"\x05", 1, b"\x01", Some(6)),
        // 12 and 13 qubits of a check, and of a generator
        (13, 1, b"\xFF\x0F", 1, b"\x00\x00", None),
        (13, 1, b"\xFF\x1F", 1, b"\x00\x00", Some(7)),
        (13, 1, b"\x00\x00", 1, b"\xFE\x1F", None),
        (13, 1, b"\x00\x00", 1, b"\xFF\x1F", Some(7)),
        // 12 and 13 checks of a qubit, and 12 and 13 generators
        (1, 12, &[1; 12], 1, b"\x00", None),
        (1, 13, &[1; 13], 1, b"\x00", Some(7)),
        (1, 1, b"\x00", 12, &[1; 12], None),
        (1, 1, b"\x00", 13, &[1; 13], Some(7)),
        // 12 of both
        (12, 12, FULL, 12, FULL, None),
        // 13 before an odd overlap
        (13, 1, b"\xFF\x1F", 1, b"\xFF\x1F", Some(7)),
        (13, 1, b"\x01\x00", 1, b"\xFF\x1F", Some(7)),
        (1, 13, &[1; 13], 1, b"\x01", Some(7)),
    ];
    answers(&rt, rt.alloc(), &cases);
}

#[test]
fn overlaps_are_asked_last(rt: HostRuntime) {
    let cases: [Asked<'_>; 14] = [
        // one, three, two and four shared qubits
        (1, 1, b"\x01", 1, b"\x01", Some(9)),
        (2, 1, b"\x01", 1, b"\x01", Some(9)),
        (3, 1, b"\x07", 1, b"\x07", Some(9)),
        (3, 1, b"\x07", 1, b"\x06", None),
        (4, 1, b"\x0F", 1, b"\x0F", None),
        (9, 1, b"\x01\x01", 1, b"\x00\x01", Some(9)),
        // only one check and one generator share an odd number: both first, both last, and one of each
        (3, 2, b"\x01\x02", 2, b"\x01\x04", Some(9)),
        (3, 2, b"\x01\x02", 2, b"\x04\x02", Some(9)),
        (3, 2, b"\x01\x02", 2, b"\x04\x01", Some(9)),
        (3, 2, b"\x01\x02", 2, b"\x02\x04", Some(9)),
        (3, 2, b"\x01\x02", 2, b"\x04\x04", None),
        // empty and repeated rows
        (2, 2, b"\x00\x00", 1, b"\x00", None),
        (2, 3, b"\x03\x03\x00", 2, b"\x03\x03", None),
        (2, 3, b"\x03\x03\x00", 2, b"\x03\x01", Some(9)),
    ];
    answers(&rt, rt.alloc(), &cases);
}

#[test]
fn rows_are_told_from_both_sides(rt: HostRuntime) -> Result<(), Fail> {
    // With an empty row and a repeated one, and more checks than generators.
    let checks = Rows {
        count: 3,
        bytes: b"\x03\x00\x03",
    };
    let generators = Rows {
        count: 2,
        bytes: b"\x03\x0C",
    };
    let small = make_code(rt.alloc(), 4, checks, generators)
        .ok()
        .ok_or("refused")?;
    let holds = Holds {
        letter: b'W',
        qubits: 4,
        checks: &[&[0, 1], &[], &[0, 1]],
        generators: &[&[0, 1], &[2, 3]],
    };
    tells(&rt, &small, holds)?;

    // The rows of the example's product.
    let checks = Rows {
        count: 6,
        bytes: b"\x03\x02\x06\x04\x18\x0A\x30\x14\xC0\x08\x80\x11",
    };
    let generators = Rows {
        count: 6,
        bytes: b"\x09\x02\x12\x06\x24\x04\x48\x08\x90\x18\x20\x11",
    };
    let product = make_code(rt.alloc(), 13, checks, generators)
        .ok()
        .ok_or("refused")?;
    let holds = Holds {
        letter: b'W',
        qubits: 13,
        checks: EXAMPLE_PRODUCT.checks,
        generators: EXAMPLE_PRODUCT.generators,
    };
    tells(&rt, &product, holds)
}

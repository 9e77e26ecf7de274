// The reader: which question a file answers first with no, and what an accepted file tells.
use crate::telling::{Edges, tells};
use graph_files::reading::read_graph;
use std::alloc::Global;
use std::process::Abort;
use std::test::Fail;

// Three variables and two checks: check 0 has the variables 0 and 1, and check 1 has 1 and 2.
pub const EXAMPLE: &[u8; 11] = b"TAN\x00\x01\x00\x03\x00\x02\x03\x06";

// The number of the question that the file answers with no; nothing where it is accepted.
fn refused(heap: Global, file: &[u8]) -> Option<u8> {
    read_graph(heap, file).err().map(|refusal| refusal.number())
}

fn answers(rt: &impl Abort, heap: Global, files: &[(&[u8], Option<u8>)]) {
    for (i, (file, number)) in files.iter().enumerate() {
        assert_eq!(rt; refused(heap, *file), *number, "file {i}");
    }
}

#[test]
fn the_example_is_told(rt: HostRuntime) -> Result<(), Fail> {
    let graph = read_graph(rt.alloc(), EXAMPLE).ok().ok_or("refused")?;
    let edges = Edges {
        of_variables: &[&[0], &[0, 1], &[1]],
        of_checks: &[&[0, 1], &[1, 2]],
    };
    tells(&rt, &graph, &edges)
}

#[test]
fn each_cut_of_the_example_is_refused(rt: HostRuntime) {
    let file = *EXAMPLE;
    for length in 0..11 {
        let first = if length < 9 { 1 } else { 5 };
        assert_eq!(rt;
            refused(rt.alloc(), &file[0..length]),
            Some(first),
            "{length}"
        );
    }
}

#[test]
fn heads_are_asked_in_order(rt: HostRuntime) {
    let files: [(&[u8], Option<u8>); 12] = [
        (EXAMPLE, None),
        // a head that is cut short, whatever its mark
        (b"\x00\x00\x00\x00\x00\x00\x00\x00", Some(1)),
        // each byte of the mark, and a wrong mark before a wrong version
        (b"SAN\x00\x01\x00\x03\x00\x02\x03\x06", Some(2)),
        (b"TaN\x00\x01\x00\x03\x00\x02\x03\x06", Some(2)),
        (b"TAM\x00\x02\x00\x03\x00\x02\x03\x06", Some(2)),
        // both bytes of the version, and a wrong version before a count of 0
        (b"TAN\x01\x01\x00\x03\x00\x02\x03\x06", Some(3)),
        (b"TAN\x01\x00\x00\x03\x00\x02\x03\x06", Some(3)),
        (b"TAN\x00\x00\x00\x00\x00\x02\x03\x06", Some(3)),
        // both bytes of each count, and a count of 0 before a wrong length
        (b"TAN\x00\x01\x01\x03\x00\x02\x03\x06", Some(4)),
        (b"TAN\x00\x01\x00\x03\x01\x02\x03\x06", Some(4)),
        (b"TAN\x00\x01\x00\x00\x00\x02\x03\x06", Some(4)),
        (b"TAN\x00\x01\x00\x03\x00\x00\x03\x06", Some(4)),
    ];
    answers(&rt, rt.alloc(), &files);
}

#[test]
fn rows_are_asked_in_order(rt: HostRuntime) {
    let files: [(&[u8], Option<u8>); 16] = [
        // a byte too many, a byte too few, and a wrong length before an unused bit
        (b"TAN\x00\x01\x00\x03\x00\x02\x03\x06\x00", Some(5)),
        (b"TAN\x00\x01\x00\x09\x00\x02\x03\x00\x06", Some(5)),
        (b"TAN\x00\x01\x00\x03\x00\x02\x0B", Some(5)),
        // an unused bit of the first row, of the last, and of a second byte, and one before a degree of 7
        (b"TAN\x00\x01\x00\x03\x00\x02\x0B\x06", Some(6)),
        (b"TAN\x00\x01\x00\x03\x00\x02\x03\x86", Some(6)),
        (b"TAN\x00\x01\x00\x09\x00\x01\x00\x02", Some(6)),
        (b"TAN\x00\x01\x00\x07\x00\x01\xFF", Some(6)),
        // 6 and 7 variables of a check, in one byte and in two
        (b"TAN\x00\x01\x00\x07\x00\x01\x7E", None),
        (b"TAN\x00\x01\x00\x07\x00\x01\x7F", Some(7)),
        (b"TAN\x00\x01\x00\x09\x00\x01\x1F\x01", None),
        (b"TAN\x00\x01\x00\x09\x00\x01\x3F\x01", Some(7)),
        // 6 and 7 checks of a variable
        (
            b"TAN\x00\x01\x00\x01\x00\x07\x01\x01\x01\x00\x01\x01\x01",
            None,
        ),
        (
            b"TAN\x00\x01\x00\x01\x00\x07\x01\x01\x01\x01\x01\x01\x01",
            Some(7),
        ),
        // 6 of both, and then a check more, or a variable more
        (b"TAN\x00\x01\x00\x06\x00\x06\x3F\x3F\x3F\x3F\x3F\x3F", None),
        (
            b"TAN\x00\x01\x00\x06\x00\x07\x3F\x3F\x3F\x3F\x3F\x3F\x3F",
            Some(7),
        ),
        (
            b"TAN\x00\x01\x00\x07\x00\x06\x7F\x7F\x7F\x7F\x7F\x7F",
            Some(7),
        ),
    ];
    answers(&rt, rt.alloc(), &files);
}

#[test]
fn counts_go_from_1_to_96(rt: HostRuntime) -> Result<(), Fail> {
    // Graphs with no edges: the variables, the checks, the bytes of the rows, and the refusal.
    let graphs = [
        (1, 1, 1, None),
        (96, 1, 12, None),
        (97, 1, 13, Some(4)),
        (1, 96, 96, None),
        (1, 97, 97, Some(4)),
        (96, 96, 1152, None),
        (0, 1, 0, Some(4)),
        (1, 0, 0, Some(4)),
    ];
    for (variables, checks, rows, number) in graphs {
        let mut file = Vec::from_slice(
            rt.alloc(),
            &[b'T', b'A', b'N', 0, 1, 0, variables, 0, checks],
        )?;
        for _ in 0..rows {
            file.push(0)?;
        }
        assert_eq!(rt;
            refused(rt.alloc(), file.as_slice()),
            number,
            "{variables} and {checks}"
        );
    }
    Ok(())
}

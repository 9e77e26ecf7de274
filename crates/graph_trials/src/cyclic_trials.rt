// Cyclic graphs: check p is joined to the variables (p + shift) mod n.
use crate::telling::{Edges, tells};
use graph_files::reading::read_graph;
use graph_files::writing::write_graph;
use graphs::cyclic::Cyclic;
use graphs::turned::Turned;
use std::test::Fail;

#[test]
fn shifts_are_asked_in_order(rt: HostRuntime) {
    let cases: [(u32, &[u32], Option<u8>); 15] = [
        (0, &[0], Some(4)),
        (97, &[0], Some(4)),
        (97, &[], Some(4)),
        (u32::MAX, &[u32::MAX, 0], Some(4)),
        (3, &[], Some(7)),
        (8, &[0, 1, 2, 3, 4, 5, 6], Some(7)),
        (3, &[9, 9, 9, 9, 9, 9, 9], Some(7)),
        (3, &[0, 3], Some(8)),
        (3, &[1, 1], Some(8)),
        (5, &[0, 2, 1], Some(8)),
        (3, &[u32::MAX], Some(8)),
        (96, &[96], Some(8)),
        (1, &[0], None),
        (96, &[95], None),
        (6, &[0, 1, 2, 3, 4, 5], None),
    ];
    for (i, (count, shifts, number)) in cases.iter().enumerate() {
        let refused = Cyclic::new(rt.alloc(), *count, *shifts)
            .err()
            .map(|refusal| refusal.number());
        assert_eq!(rt; refused, *number, "case {i}");
    }
}

#[test]
fn shifts_wrap_round_both_ways(rt: HostRuntime) -> Result<(), Fail> {
    let cyclic = Cyclic::new(rt.alloc(), 5, &[0, 2, 4])
        .ok()
        .ok_or("refused")?;
    let of_variables: &[&[u32]] = &[&[0, 3, 1], &[1, 4, 2], &[2, 0, 3], &[3, 1, 4], &[4, 2, 0]];
    let of_checks: &[&[u32]] = &[&[0, 2, 4], &[1, 3, 0], &[2, 4, 1], &[3, 0, 2], &[4, 1, 3]];
    tells(
        &rt,
        &cyclic,
        &Edges {
            of_variables,
            of_checks,
        },
    )?;
    let turned = Turned { graph: cyclic };
    tells(
        &rt,
        &turned,
        &Edges {
            of_variables: of_checks,
            of_checks: of_variables,
        },
    )?;
    tells(
        &rt,
        &Turned { graph: turned },
        &Edges {
            of_variables,
            of_checks,
        },
    )
}

#[test]
fn a_turned_graph_is_written_and_read(rt: HostRuntime) -> Result<(), Fail> {
    let graph = Cyclic::new(rt.alloc(), 5, &[0, 2, 4])
        .ok()
        .ok_or("refused")?;
    let mut file = [0; 14];
    assert_eq!(rt; write_graph(&Turned { graph }, &mut file).ok(), Some(14));
    // Check p of the turned graph has the variables p, p - 2 and p - 4 mod 5.
    assert_eq!(rt; file, *b"TAN\x00\x01\x00\x05\x00\x05\x0B\x16\x0D\x1A\x15");
    let read = read_graph(rt.alloc(), &file).ok().ok_or("refused")?;
    let edges = Edges {
        of_variables: &[&[0, 2, 4], &[0, 1, 3], &[1, 2, 4], &[0, 2, 3], &[1, 3, 4]],
        of_checks: &[&[0, 1, 3], &[1, 2, 4], &[0, 2, 3], &[1, 3, 4], &[0, 2, 4]],
    };
    tells(&rt, &read, &edges)
}

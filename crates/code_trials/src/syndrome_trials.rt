// Syndromes, and corrections that are alike. Item k of a pattern stands in byte k / 8, at the bit of value 2^(k % 8).
use crate::product_trials::EXAMPLE;
use codes::bare::Bare;
use codes::code::Code;
use codes::exchanged::Exchanged;
use graph_files::reading::read_graph;
use products::product::Product;
use std::alloc::Global;
use std::process::Abort;
use std::test::Fail;
use syndromes::{alike, syndrome};

// A set, an output before the call, the number of the question that is answered with no, and the output after the call.
type Filled<'a> = (&'a [u8], &'a [u8], Option<u8>, &'a [u8]);

fn fills<C: Code>(
    rt: &impl Abort,
    heap: Global,
    code: &C,
    cases: &[Filled<'_>],
) -> Result<(), Fail> {
    for (i, (set, before, number, after)) in cases.iter().enumerate() {
        let mut out = Vec::from_slice(heap, *before)?;
        let refused = syndrome(code, *set, out.as_mut_slice())
            .err()
            .map(|refusal| refusal.number());
        assert_eq!(rt; refused, *number, "case {i}");
        assert!(rt; out.as_slice() == *after, "case {i}");
    }
    Ok(())
}

// Two sets, and whether they are alike or the number of the question that is answered with no.
type Compared<'a> = (&'a [u8], &'a [u8], Result<bool, u8>);

fn compares<C: Code>(rt: &impl Abort, code: &C, cases: &[Compared<'_>]) {
    for (i, (one, two, expected)) in cases.iter().enumerate() {
        let answer = alike(code, *one, *two).map_err(|refusal| refusal.number());
        assert_eq!(rt; answer, *expected, "case {i}");
    }
}

#[test]
fn syndromes_of_the_example(rt: HostRuntime) -> Result<(), Fail> {
    let graph = read_graph(rt.alloc(), EXAMPLE).ok().ok_or("refused")?;
    let code = Product::of(graph);
    // The checks are {0, 1, 9}, {1, 2, 10}, {3, 4, 9, 11}, {4, 5, 10, 12}, {6, 7, 11} and {7, 8, 12}.
    let cases: [Filled<'_>; 17] = [
        (b"\x00\x00", b"\xEE", None, b"\x00"),
        (b"\x00\x02", b"\x00", None, b"\x05"),
        (b"\x00\x02", b"\xFF", None, b"\x05"),
        (b"\x10\x00", b"\xEE", None, b"\x0C"),
        (b"\x00\x10", b"\xEE", None, b"\x28"),
        (b"\x10\x02", b"\xEE", None, b"\x09"),
        (b"\xFF\x1F", b"\xEE", None, b"\x33"),
        // the generators 0 and 4
        (b"\x09\x02", b"\xEE", None, b"\x00"),
        (b"\x90\x18", b"\xEE", None, b"\x00"),
        // a wrong length of either pattern, with an unused bit set or not
        (b"\x00", b"\xEE", Some(11), b"\xEE"),
        (b"\x00\x02\x00", b"\xEE", Some(11), b"\xEE"),
        (b"\x00\x20\x00", b"\xEE", Some(11), b"\xEE"),
        (b"\x00\x02", b"", Some(11), b""),
        (b"\x00\x02", b"\xEE\xDD", Some(11), b"\xEE\xDD"),
        (b"\x00\x20", b"\xEE\xDD", Some(11), b"\xEE\xDD"),
        // the first unused bit of the set, and the last
        (b"\x00\x22", b"\xEE", Some(6), b"\xEE"),
        (b"\x00\x80", b"\xEE", Some(6), b"\xEE"),
    ];
    fills(&rt, rt.alloc(), &code, &cases)
}

#[test]
fn corrections_of_the_example(rt: HostRuntime) -> Result<(), Fail> {
    let graph = read_graph(rt.alloc(), EXAMPLE).ok().ok_or("refused")?;
    let code = Product::of(graph);
    let cases: [Compared<'_>; 16] = [
        // {9} and {0, 3} differ by the generator {0, 3, 9}, and {4} and {7, 11, 12} by {4, 7, 11, 12}
        (b"\x00\x02", b"\x09\x00", Ok(true)),
        (b"\x10\x00", b"\x80\x18", Ok(true)),
        (b"\xFF\x1F", b"\xFF\x1F", Ok(true)),
        (b"\x00\x00", b"\x09\x02", Ok(true)),
        // {0} has the syndrome {0}, {9} has {0, 2}, and {8} has {5}
        (b"\x00\x02", b"\x01\x00", Ok(false)),
        (b"\x01\x00", b"\x00\x02", Ok(false)),
        (b"\x01\x00", b"\x00\x00", Ok(false)),
        (b"\x00\x00", b"\x00\x01", Ok(false)),
        // a wrong length of either, with an unused bit set or not
        (b"\x00", b"\x00\x00", Err(11)),
        (b"\x00\x00", b"\x00\x00\x00", Err(11)),
        (b"", b"", Err(11)),
        (b"\x00\x20", b"\x00", Err(11)),
        (b"\x00", b"\x00\x20", Err(11)),
        // an unused bit of either
        (b"\x00\x20", b"\x00\x00", Err(6)),
        (b"\x00\x00", b"\x00\x80", Err(6)),
        (b"\x00\x20", b"\x00\x20", Err(6)),
    ];
    compares(&rt, &code, &cases);
    Ok(())
}

#[test]
fn no_checks_tell_nothing_apart(rt: HostRuntime) -> Result<(), Fail> {
    let graph = read_graph(rt.alloc(), EXAMPLE).ok().ok_or("refused")?;
    let code = Bare { graph };
    // The checks are {0, 1} and {1, 2}.
    let with_checks: [Filled<'_>; 3] = [
        (b"\x02", b"\xEE", None, b"\x03"),
        (b"\x05", b"\xEE", None, b"\x03"),
        (b"\x07", b"\xEE", None, b"\x00"),
    ];
    fills(&rt, rt.alloc(), &code, &with_checks)?;
    compares(
        &rt,
        &code,
        &[(b"\x02", b"\x05", Ok(true)), (b"\x02", b"\x04", Ok(false))],
    );

    let exchanged = Exchanged { code };
    let without: [Filled<'_>; 4] = [
        (b"\x05", b"", None, b""),
        (b"\x05", b"\xEE", Some(11), b"\xEE"),
        (b"", b"", Some(11), b""),
        (b"\x08", b"", Some(6), b""),
    ];
    fills(&rt, rt.alloc(), &exchanged, &without)?;
    for one in 0..8 {
        for two in 0..8 {
            compares(&rt, &exchanged, &[(&[one], &[two], Ok(true))]);
        }
    }
    compares(
        &rt,
        &exchanged,
        &[(b"\x00", b"\x08", Err(6)), (b"\x00", b"", Err(11))],
    );
    Ok(())
}

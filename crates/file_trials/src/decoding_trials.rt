// Job files and what decoding writes of them: one of each verdict, of each side, and of each refusal that a file can get.
// The files and texts are those of examples/, where an independent decoder said what each text must be.
use decoding::jobs_of_files::decode_file;
use std::alloc::Global;
use std::process::Abort;
use std::test::Fail;

// A file and the text that is written of it.
type Decoded<'a> = (&'a str, &'a [u8], &'a [u8]);

// Room for the text, and bytes after it that must stay.
fn decodes(rt: &impl Abort, heap: Global, cases: &[Decoded<'_>]) -> Result<(), Fail> {
    for (name, file, text) in cases.iter() {
        let mut out = [0xAA; 120];
        let size = decode_file(heap, *file, &mut out).ok().ok_or("refused")?;
        assert_eq!(rt; size, text.len(), "{}", *name);
        assert_eq!(rt; &out[..size], *text, "{}", *name);
        assert_eq!(rt; out.get(size).copied(), Some(0xAA), "{}", *name);
    }
    Ok(())
}

#[test]
fn verdicts_and_sides(rt: HostRuntime) -> Result<(), Fail> {
    let cases: [Decoded<'_>; 6] = [
        (
            "contradicted",
            b"\x45\x52\x41\x00\x01\x00\x00\x0B\x54\x41\x4E\x00\x01\x00\x03\x00\x02\x03\x06\x02\x01\x00",
            b"code P 13 6 6\nverdict contradicted\nmoves 1 0 0\nfix 0000\nopen 0000\n",
        ),
        (
            "empty",
            b"\x45\x52\x41\x00\x01\x00\x00\x0B\x54\x41\x4E\x00\x01\x00\x03\x00\x02\x03\x06\x00\x00\x00",
            b"code P 13 6 6\nverdict settled\nmoves 0 0 0\nfix 0000\nopen 0000\n",
        ),
        (
            "exchanged",
            b"\x45\x52\x41\x00\x01\x01\x00\x0B\x54\x41\x4E\x00\x01\x00\x03\x00\x02\x03\x06\x12\x10\x02",
            b"code E 13 6 6\nverdict settled\nmoves 2 0 0\nfix 1000\nopen 0000\n",
        ),
        (
            "matched",
            b"\x45\x52\x41\x00\x01\x00\x00\x0B\x54\x41\x4E\x00\x01\x00\x03\x00\x02\x03\x06\x03\x07\x00",
            b"code P 13 6 6\nverdict matched\nmoves 0 0 2\nfix 0500\nopen 0700\n",
        ),
        (
            "settled",
            b"\x45\x52\x41\x00\x01\x00\x00\x0B\x54\x41\x4E\x00\x01\x00\x03\x00\x02\x03\x06\x05\x09\x02",
            b"code P 13 6 6\nverdict settled\nmoves 2 1 0\nfix 0002\nopen 0000\n",
        ),
        (
            "stalled",
            b"\x45\x52\x41\x00\x01\x00\x00\x0C\x54\x41\x4E\x00\x01\x00\x03\x00\x03\x03\x06\x05\x01\x00\x07\x00\x00",
            b"code P 18 9 9\nverdict stalled\nmoves 0 0 0\nfix 000000\nopen 070000\n",
        ),
    ];
    decodes(&rt, rt.alloc(), &cases)
}

#[test]
fn refusals_of_the_job(rt: HostRuntime) -> Result<(), Fail> {
    let cases: [Decoded<'_>; 8] = [
        (
            "job-1-head-cut-short",
            b"\x45\x52\x41\x00\x01\x00\x00",
            b"refused job 1\n",
        ),
        (
            "job-10-unknown-side",
            b"\x45\x52\x41\x00\x01\x02\x00\x0B\x54\x41\x4E\x00\x01\x00\x03\x00\x02\x03\x06\x05\x09\x02",
            b"refused job 10\n",
        ),
        (
            "job-2-wrong-mark",
            b"\x45\x52\x42\x00\x01\x00\x00\x0B\x54\x41\x4E\x00\x01\x00\x03\x00\x02\x03\x06\x05\x09\x02",
            b"refused job 2\n",
        ),
        (
            "job-3-wrong-version",
            b"\x45\x52\x41\x01\x01\x00\x00\x0B\x54\x41\x4E\x00\x01\x00\x03\x00\x02\x03\x06\x05\x09\x02",
            b"refused job 3\n",
        ),
        (
            "job-5-graph-part-cut-short",
            b"\x45\x52\x41\x00\x01\x00\x00\x0B\x54\x41\x4E\x00\x01\x00\x03\x00\x02\x03",
            b"refused job 5\n",
        ),
        (
            "job-5-trailing-byte",
            b"\x45\x52\x41\x00\x01\x00\x00\x0B\x54\x41\x4E\x00\x01\x00\x03\x00\x02\x03\x06\x05\x09\x02\x00",
            b"refused job 5\n",
        ),
        (
            "job-6-unused-bit-of-the-erasure",
            b"\x45\x52\x41\x00\x01\x00\x00\x0B\x54\x41\x4E\x00\x01\x00\x03\x00\x02\x03\x06\x05\x09\x82",
            b"refused job 6\n",
        ),
        (
            "job-6-unused-bit-of-the-syndrome",
            b"\x45\x52\x41\x00\x01\x00\x00\x0B\x54\x41\x4E\x00\x01\x00\x03\x00\x02\x03\x06\x45\x09\x02",
            b"refused job 6\n",
        ),
    ];
    decodes(&rt, rt.alloc(), &cases)
}

#[test]
fn refusals_of_the_graph(rt: HostRuntime) -> Result<(), Fail> {
    let cases: [Decoded<'_>; 8] = [
        (
            "graph-1-head-cut-short",
            b"\x45\x52\x41\x00\x01\x00\x00\x08\x54\x41\x4E\x00\x01\x00\x03\x00\x05\x09\x02",
            b"refused graph 1\n",
        ),
        (
            "graph-2-wrong-mark",
            b"\x45\x52\x41\x00\x01\x00\x00\x0B\x54\x41\x4D\x00\x01\x00\x03\x00\x02\x03\x06\x05\x09\x02",
            b"refused graph 2\n",
        ),
        (
            "graph-3-wrong-version",
            b"\x45\x52\x41\x00\x01\x00\x00\x0B\x54\x41\x4E\x00\x02\x00\x03\x00\x02\x03\x06\x05\x09\x02",
            b"refused graph 3\n",
        ),
        (
            "graph-4-no-variables",
            b"\x45\x52\x41\x00\x01\x00\x00\x0B\x54\x41\x4E\x00\x01\x00\x00\x00\x02\x03\x06\x05\x09\x02",
            b"refused graph 4\n",
        ),
        (
            "graph-4-too-many-variables",
            b"\x45\x52\x41\x00\x01\x00\x00\x16\x54\x41\x4E\x00\x01\x00\x61\x00\x01\x00\x00\x00\x00\x00\x00\x00\x00\x00\x00\x00\x00\x00\x05\x09\x02",
            b"refused graph 4\n",
        ),
        (
            "graph-5-part-longer-than-its-graph",
            b"\x45\x52\x41\x00\x01\x00\x00\x0C\x54\x41\x4E\x00\x01\x00\x03\x00\x02\x03\x06\x00\x05\x09\x02",
            b"refused graph 5\n",
        ),
        (
            "graph-6-unused-bit",
            b"\x45\x52\x41\x00\x01\x00\x00\x0B\x54\x41\x4E\x00\x01\x00\x03\x00\x02\x0B\x06\x05\x09\x02",
            b"refused graph 6\n",
        ),
        (
            "graph-7-degree-of-seven",
            b"\x45\x52\x41\x00\x01\x00\x00\x0A\x54\x41\x4E\x00\x01\x00\x07\x00\x01\x7F\x05\x09\x02",
            b"refused graph 7\n",
        ),
    ];
    decodes(&rt, rt.alloc(), &cases)
}

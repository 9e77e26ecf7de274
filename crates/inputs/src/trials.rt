// Inputs that are shorter than the most, as long, and longer.
use crate::read_up_to;
use std::test::Fail;

#[test]
fn reads_up_to(rt: HostRuntime) -> Result<(), Fail> {
    let cases: [(u64, &[u8]); 4] = [(0, b""), (4, b"abcd"), (6, b"abcdef"), (100, b"abcdef")];
    for (most, want) in cases {
        let bytes = read_up_to(rt.alloc(), &b"abcdef"[..], most)?;
        assert_eq!(rt; bytes.as_slice(), want, "up to {most} bytes");
    }
    Ok(())
}

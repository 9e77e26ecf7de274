// Inputs that are longer than the file that is read of them: the first bytes are the file, and the others are not looked at.
use decoding::jobs_of_files::decode_file;
use inputs::read_up_to;
use std::test::Fail;

// How much is read at most, how much of it there is, and what is written of that.
type Read<'a> = (u64, usize, &'a [u8]);

#[test]
fn the_first_bytes_are_the_file(rt: HostRuntime) -> Result<(), Fail> {
    // a job file of 22 bytes, and zeros after it
    let mut input = [0; 9022];
    input[..22].copy_from_slice(
        b"\x45\x52\x41\x00\x01\x00\x00\x0B\x54\x41\x4E\x00\x01\x00\x03\x00\x02\x03\x06\x05\x09\x02",
    );
    let cases: [Read<'_>; 4] = [
        (21, 21, b"refused job 5\n"),
        (
            22,
            22,
            b"code P 13 6 6\nverdict settled\nmoves 2 1 0\nfix 0002\nopen 0000\n",
        ),
        (8192, 8192, b"refused job 5\n"),
        (10000, 9022, b"refused job 5\n"),
    ];
    for (most, size, text) in cases {
        let file = read_up_to(rt.alloc(), &input[..], most)?;
        assert_eq!(rt; file.len(), size, "up to {most} bytes");
        let mut out = [0xAA; 120];
        let written = decode_file(rt.alloc(), file.as_slice(), &mut out)
            .ok()
            .ok_or("refused")?;
        assert_eq!(rt; &out[..written], text, "up to {most} bytes");
    }
    Ok(())
}

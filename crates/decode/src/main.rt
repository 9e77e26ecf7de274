// Reads a job file on standard input, decodes it, and prints the report, or why the file was refused.
#![tactic(auto)]

use anyhow::anyhow;
use decoding::jobs_of_files::decode_file;
use inputs::read_up_to;
use std::io::Write;

// Of a longer input, this many bytes are the file.
const MOST_INPUT: u64 = 8192;

// No report is longer: two patterns of 2,304 bytes, in two digits a byte, and five lines around them.
// An array with the size beside, since decoding writes at the front of bytes that it is lent.
const MOST_OUTPUT: usize = 9600;

fn run(rt: &HostRuntime) -> anyhow::Result<()> {
    let bytes = read_up_to(rt.alloc(), rt.stdin(), MOST_INPUT)?;
    let mut out = [0; MOST_OUTPUT];
    match decode_file(rt.alloc(), bytes.as_slice(), &mut out) {
        Ok(size) => rt.stdout().write_all(&out[..size])?,
        Err(refusal) => {
            eprintln!(rt; "decode: {refusal}")?;
            return Err(anyhow!("the job was not decoded"));
        }
    }
    Ok(())
}

fn main(rt: HostRuntime) -> anyhow::Result<()> {
    run(&rt)
}

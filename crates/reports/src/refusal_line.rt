// The line that says why a job file was refused.
ghost use Rattle.std.specs.Prelude.{◌≡◌};
ghost use Rattle.refusals.specs.Outputs.{answered, written};
ghost use Rattle.reports.specs.RefusalLines.{refusal_line};

use crate::pieces::{put, put_count};
use arrayvec::ArrayVec;
use job_files::faults::Fault;
use refusals::Refusal;

// The line is shorter than this.
const MOST_LINE: usize = 32;

fn refusal_line(fault: Fault) -> ArrayVec<u8, MOST_LINE>
    ensures { result.items ≡ refusal_line fault }
{
    let mut line = ArrayVec::new();
    put("refused ", &mut line);
    put(fault.layer(), &mut line);
    put_count(u32::from(fault.refusal().number()), &mut line);
    line.push(b'\n');
    line
}

// Writes the line at the front of `out`; answers how many bytes it wrote.
pub fn write_refusal(fault: Fault, out: &mut [u8]) -> Result<usize, Refusal>
    ensures value { result ≡ answered (refusal_line fault) out.old }
    ensures after { out.new ≡ written (refusal_line fault) out.old }
{
    let line = refusal_line(fault);
    let size = line.len();
    if out.len() < size {
        return Err(Refusal::OutputTooShort);
    }
    out[..size].copy_from_slice(line.as_slice());
    Ok(size)
}

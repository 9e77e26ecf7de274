// The job of a file is decoded on the side that the file names.
ghost use Rattle.std.specs.Prelude.{◌≡◌, ◌≤◌, length, IfOk};
ghost use Rattle.graph_files.specs.Held.{graph_of};
ghost use Rattle.decoding.specs.Decodings.{UnlessNoMemory};
ghost use Rattle.decoding.specs.Files.{job_answer, job_output, file_answer, file_output};

use crate::jobs_of_codes::decode;
use codes::exchanged::Exchanged;
use job_files::parts::{JobFile, Side};
use job_files::reading::read_job;
use products::product::Product;
use refusals::Refusal;
use reports::refusal_line::write_refusal;
use std::alloc::Global;

// The report of what a job file tells: its syndrome and its erasure on its side of the product of its graph with itself.
fn decode_job(heap: Global, job: JobFile<'_>, out: &mut [u8]) -> Result<usize, Refusal>
    ensures { UnlessNoMemory result out.old out.new
        (job_answer job.entry.side (graph_of job.entry.graph) job.entry.syndrome.bytes.now job.entry.erasure.bytes.now out.old)
        (job_output job.entry.side (graph_of job.entry.graph) job.entry.syndrome.bytes.now job.entry.erasure.bytes.now out.old) }
{
    let syndrome = job.syndrome.bytes;
    let erasure = job.erasure.bytes;
    let code = Product::of(job.graph);
    match job.side {
        Side::Product => decode(heap, &code, syndrome, erasure, out),
        Side::ExchangedProduct => decode(heap, &Exchanged { code }, syndrome, erasure, out),
    }
}

// Decodes a job file, and writes its report at the front of `out`, or the line that says why the file was refused; answers how many bytes it wrote.
pub fn decode_file(heap: Global, file: &[u8], out: &mut [u8]) -> Result<usize, Refusal>
    ensures value { UnlessNoMemory result out.old out.new (file_answer file.now out.old) (file_output file.now out.old) }
    ensures bound { IfOk result (λ size. size ≤ length out.old) }
{
    match read_job(heap, file) {
        Ok(job) => decode_job(heap, job, out),
        Err(fault) => match fault.refusal() {
            Refusal::OutOfMemory => Err(Refusal::OutOfMemory),
            _ => write_refusal(fault, out),
        },
    }
}

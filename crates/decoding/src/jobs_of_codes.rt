// A job is opened on a syndrome and an erasure, run until no move applies, and reported.
ghost use Rattle.std.specs.Prelude.{◌≡◌};
ghost use Rattle.moves.specs.Held.{model};
ghost use Rattle.reports.specs.Reports.{report_answer, report_output};
ghost use Rattle.decoding.specs.Decodings.{told_of, decoded, blank, decoded_answer, decoded_output, UnlessNoMemory, WellFormedDecode};

use codes::code::Code;
use jobs::answers::Run;
use jobs::run::run;
use moves::job::Job;
use patterns::shapes::width;
use refusals::Refusal;
use reports::report::Report;
use reports::writing::write_report;
use std::alloc::Global;

// Writes the report of a job after a run. The code and the job stay two parameters, here and below, as the calls on a job take them.
fn report<C: Code>(code: &C, job: &Job, ran: Run, out: &mut [u8]) -> Result<usize, Refusal>
    ensures value { result ≡ report_answer (told_of C.LETTER (C.layout code.now) ran (model job.now)) out.old }
    ensures after { out.new ≡ report_output (told_of C.LETTER (C.layout code.now) ran (model job.now)) out.old }
{
    let report = Report {
        verdict: ran.verdict,
        peels: ran.peels,
        prunes: ran.prunes,
        flips: ran.flips,
        correction: job.correction,
        opened: job.opened,
    };
    write_report(code, report, out)
}

// Opens the job, runs it, and writes its report.
// The syndrome and the erasure stay two parameters: the calls above and below take two, and a struct would only be packed and unpacked.
fn work<C: Code>(
    code: &C,
    job: &mut Job,
    syndrome: &[u8],
    erasure: &[u8],
    out: &mut [u8],
) -> Result<usize, Refusal>
    ensures value { result ≡ decoded_answer C.LETTER (C.layout code.now) (decoded (C.layout code.now) (model job.old) syndrome.now erasure.now) out.old }
    ensures after { out.new ≡ decoded_output C.LETTER (C.layout code.now) (decoded (C.layout code.now) (model job.old) syndrome.now erasure.now) out.old }
{
    job.open(code, syndrome, erasure)?;
    let ran = run(code, job)?;
    report(code, job, ran, out)
}

// Decodes the syndrome and the erasure, and writes the report at the front of `out`; answers how many bytes it wrote.
pub fn decode<C: Code>(
    heap: Global,
    code: &C,
    syndrome: &[u8],
    erasure: &[u8],
    out: &mut [u8],
) -> Result<usize, Refusal>
    ensures value { UnlessNoMemory result out.old out.new
        (decoded_answer C.LETTER (C.layout code.now) (decoded (C.layout code.now) (blank (C.layout code.now)) syndrome.now erasure.now) out.old)
        (decoded_output C.LETTER (C.layout code.now) (decoded (C.layout code.now) (blank (C.layout code.now)) syndrome.now erasure.now) out.old) }
    ensures well_formed { WellFormedDecode C.LETTER (C.layout code.now) }
{
    let checks = width(code.checks());
    let qubits = width(code.qubits());
    let mut remaining = vec![in heap; 0; checks]?;
    let mut opened = vec![in heap; 0; qubits]?;
    let mut correction = vec![in heap; 0; qubits]?;
    let mut job = Job {
        remaining: &mut remaining,
        opened: &mut opened,
        correction: &mut correction,
        moves: 0,
    };
    work(code, &mut job, syndrome, erasure, out)
}

// The reader of job files.
ghost use Rattle.std.specs.Prelude.{◌≡◌, ◌+◌, ◌^◌, ◌<◌, ◌≤◌, Some, None, MatchResult};
ghost use Rattle.std.specs.Option.{unwrap_or};
ghost use Rattle.refusals.specs.declared.Refusal.TheVariants.{OutOfMemory};
ghost use Rattle.refusals.specs.Questions.{first_no};
ghost use Rattle.patterns.specs.Patterns.{width};
ghost use Rattle.graphs.specs.Tanners.{most_nodes};
ghost use Rattle.job_files.specs.declared.faults.Fault.TheVariants.{Graph};
ghost use Rattle.job_files.specs.Parts.{Cut};
ghost use Rattle.job_files.specs.Files.{side_in, graph_size, head_questions, checks_of, qubits_of, pattern_questions, job_fault, Told};

use crate::faults::Fault;
use crate::parts::{JobFile, Part, Side};
use graph_files::reading::{ask_graph, read_graph};
use matrices::rows::BitRows;
use patterns::shapes::{unused_are_zero, width};
use refusals::Refusal;
use std::alloc::Global;

const HEAD: usize = 8;

const VERSION: u16 = 1;

// What the head tells, and the graph file after it.
#[derive(Clone, Copy)]
struct Head<'a> {
    side: Side,
    graph: Part<'a>,
}

// How many checks and how many qubits a code has.
#[derive(Clone, Copy)]
struct Sizes {
    checks: u32,
    qubits: u32,
}

// What follows the graph file.
#[derive(Clone, Copy)]
struct Patterns<'a> {
    syndrome: Part<'a>,
    erasure: Part<'a>,
}

fn read_head<'a>(file: &'a [u8]) -> Result<Head<'a>, Refusal>
    ensures { MatchResult result
        (λ h. (first_no (head_questions file.now) ≡ None)
        × (Some h.side ≡ side_in file.now)
        × Cut file.now 8 (graph_size file.now) h.graph)
        (λ e. first_no (head_questions file.now) ≡ Some e) }
{
    let [e, r, a, v1, v0, side, l1, l0, rest @ ..] = file else {
        return Err(Refusal::HeadCutShort);
    };
    if [*e, *r, *a] != *b"ERA" {
        return Err(Refusal::WrongMark);
    }
    if u16::from_be_bytes([*v1, *v0]) != VERSION {
        return Err(Refusal::WrongVersion);
    }
    let side = Side::try_from(*side)?;
    let size = usize::from(u16::from_be_bytes([*l1, *l0]));
    let Some(bytes) = rest.get(..size) else {
        return Err(Refusal::WrongLength);
    };
    let graph = Part { at: HEAD, bytes };
    Ok(Head { side, graph })
}

impl Sizes {
    // Of the product of a graph with itself: the columns of its matrix are the variables, and the rows are the checks.
    fn of_product(graph: BitRows<'_>) -> Sizes
        requires variables_le_most_nodes { graph.columns ≤ most_nodes }
        requires checks_le_most_nodes { graph.rows ≤ most_nodes }
        ensures checks { result.checks ≡ checks_of graph.entry.columns graph.entry.rows }
        ensures qubits { result.qubits ≡ qubits_of graph.entry.columns graph.entry.rows }
    {
        let variables = graph.columns;
        let checks = graph.rows;
        Sizes {
            checks: variables * checks,
            qubits: variables * variables + checks * checks,
        }
    }
}

// The syndrome from `at` on, and the erasure after it, which ends the file.
fn read_patterns<'a>(file: &'a [u8], at: usize, sizes: Sizes) -> Result<Patterns<'a>, Refusal>
    requires { at < 2 ^ 32 }
    ensures { MatchResult result
        (λ p. (first_no (pattern_questions at sizes.checks sizes.qubits file.now) ≡ None)
        × Cut file.now at (width sizes.checks) p.syndrome
        × Cut file.now (at + width sizes.checks) (width sizes.qubits) p.erasure)
        (λ e. first_no (pattern_questions at sizes.checks sizes.qubits file.now) ≡ Some e) }
{
    let Sizes { checks, qubits } = sizes;
    let erasure_at = at + width(checks);
    if file.len() != erasure_at + width(qubits) {
        return Err(Refusal::WrongLength);
    }
    let syndrome = Part::cut(file, at, width(checks));
    let erasure = Part::cut(file, erasure_at, width(qubits));
    if !unused_are_zero(syndrome.bytes, checks) || !unused_are_zero(erasure.bytes, qubits) {
        return Err(Refusal::UnusedBitSet);
    }
    Ok(Patterns { syndrome, erasure })
}

// The parts of a job file. A refusal that comes from below is the graph's. The graph is made last, so that want of memory comes after every question.
pub fn read_job<'a>(heap: Global, file: &'a [u8]) -> Result<JobFile<'a>, Fault>
    ensures { MatchResult result (λ j. Told file.now j) (λ e. e ≡ unwrap_or (job_fault file.now) (Graph OutOfMemory)) }
{
    let head = read_head(file).map_err(Fault::Job)?;
    let asked = ask_graph(head.graph.bytes)?;
    let at = HEAD + head.graph.bytes.len();
    let patterns = read_patterns(file, at, Sizes::of_product(asked.matrix)).map_err(Fault::Job)?;
    let graph = read_graph(heap, head.graph.bytes)?;
    Ok(JobFile {
        side: head.side,
        graph,
        graph_part: head.graph,
        syndrome: patterns.syndrome,
        erasure: patterns.erasure,
    })
}

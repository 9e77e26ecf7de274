// Codes that are told by a kind and bytes.
ghost use Rattle.std.specs.Prelude.{◌≡◌, IfOk};
ghost use Rattle.moves.specs.Held.{model};
ghost use Rattle.foreign.specs.Tasks.{done};
ghost use Rattle.foreign.specs.Told.{shaped, file_code, cyclic_code, shifts_code, split_code, written_told, told_code};
ghost use Rattle.foreign.specs.Making.{layout_of, Makes};

use crate::calling::Task;
use crate::kinds::{Kind, Shape};
use crate::not_done::NotDone;
use crate::numbers::Numbers;
use codes::bare::Bare;
use codes::exchanged::Exchanged;
use graph_files::matrix::Matrix;
use graph_files::reading::read_graph;
use graphs::cyclic::Cyclic;
use graphs::graph::Graph;
use graphs::turned::Turned;
use moves::job::Job;
use patterns::shapes::width;
use products::product::Product;
use std::alloc::{AllocError, Global};
use written_codes::making::{Rows, make_code};
use written_codes::written::Written;

// A code that was told: one of a graph that was read, the product of a cyclic graph, or one that was written out.
#[derive(Drop)]
pub(crate) enum ToldCode {
    File(Shape, Matrix),
    Cyclic(Cyclic),
    Written(Written),
}

// The job and the task stay two parameters, here and below: the task is what is done to the job.
fn on_graph<G: Graph + Drop>(shape: Shape, graph: G, job: &mut Job, task: Task<'_>) -> Numbers
    ensures { (result, model job.new) ≡ done (shaped shape (G.tanner graph)) (model job.old) task.entry }
{
    match shape {
        Shape::Product => task.act_on(&Product::of(graph), job),
        Shape::Exchanged => {
            let code = Product::of(graph);
            task.act_on(&Exchanged { code }, job)
        }
        Shape::ExchangedTwice => {
            let code = Product::of(graph);
            let code = Exchanged { code };
            task.act_on(&Exchanged { code }, job)
        }
        Shape::Bare => task.act_on(&Bare { graph }, job),
        Shape::BareExchanged => {
            let code = Bare { graph };
            task.act_on(&Exchanged { code }, job)
        }
        Shape::TurnedProduct => task.act_on(&Product::of(Turned { graph }), job),
    }
}

impl ToldCode {
    // Does the task on a job of the code.
    pub(crate) fn act(self, job: &mut Job, task: Task<'_>) -> Numbers
        ensures { (result, model job.new) ≡ done (layout_of self) (model job.old) task.entry }
    {
        match self {
            ToldCode::File(shape, graph) => on_graph(shape, graph, job, task),
            ToldCode::Cyclic(graph) => on_graph(Shape::Product, graph, job, task),
            ToldCode::Written(code) => task.act_on(&code, job),
        }
    }

    // The code that the number of a kind and bytes tell.
    #[tactic(auto, unfolding(crate::specs::Told::told_code))]
    pub(crate) fn of(heap: Global, number: u32, bytes: &[u8]) -> Result<ToldCode, NotDone>
        ensures { Makes (told_code number bytes.now) result }
    {
        match Kind::try_from(number)? {
            Kind::File(shape) => of_file(heap, shape, bytes),
            Kind::Cyclic => of_cyclic(heap, bytes),
            Kind::Written => of_written(heap, bytes),
        }
    }
}

// The bytes are a graph file.
fn of_file(heap: Global, shape: Shape, file: &[u8]) -> Result<ToldCode, NotDone>
    ensures { Makes (file_code shape file.now) result }
{
    Ok(ToldCode::File(shape, read_graph(heap, file)?))
}

// The bytes as numbers.
fn widened(heap: Global, bytes: &[u8]) -> Result<Vec<u32>, AllocError>
    ensures { IfOk result (λ v. v.items ≡ bytes.now) }
{
    bytes.iter().map(|b| u32::from(*b)).collect(heap)
}

// The bytes are the shifts of a cyclic graph.
fn of_shifts(heap: Global, count: u32, shifts: &[u8]) -> Result<ToldCode, NotDone>
    ensures { Makes (shifts_code count shifts.now) result }
{
    let shifts = widened(heap, shifts)?;
    Ok(ToldCode::Cyclic(Cyclic::new(heap, count, &shifts)?))
}

// The bytes are a cyclic graph's count of variables, and its shifts.
fn of_cyclic(heap: Global, bytes: &[u8]) -> Result<ToldCode, NotDone>
    ensures { Makes (cyclic_code bytes.now) result }
{
    let [count, shifts @ ..] = bytes else {
        return Err(NotDone::NoSuchCode);
    };
    of_shifts(heap, u32::from(*count), shifts)
}

// The bytes are the rows of the checks and of the generators, so many of each.
fn of_rows(
    heap: Global,
    qubits: u16,
    checks: u16,
    generators: u16,
    rows: &[u8],
) -> Result<ToldCode, NotDone>
    ensures { Makes (split_code qubits checks generators rows.now) result }
{
    let qubits = u32::from(qubits);
    let cut = usize::from(checks) * width(qubits);
    let Some((check_rows, generator_rows)) = rows.split_at_checked(cut) else {
        return Err(NotDone::NoSuchCode);
    };
    let checks = Rows {
        count: u32::from(checks),
        bytes: check_rows,
    };
    let generators = Rows {
        count: u32::from(generators),
        bytes: generator_rows,
    };
    Ok(ToldCode::Written(make_code(heap, qubits, checks, generators)?))
}

// The bytes are the counts of qubits, checks and generators, and then the rows.
fn of_written(heap: Global, bytes: &[u8]) -> Result<ToldCode, NotDone>
    ensures { Makes (written_told bytes.now) result }
{
    let [n1, n0, m1, m0, k1, k0, rows @ ..] = bytes else {
        return Err(NotDone::NoSuchCode);
    };
    let qubits = u16::from_be_bytes([*n1, *n0]);
    let checks = u16::from_be_bytes([*m1, *m0]);
    let generators = u16::from_be_bytes([*k1, *k0]);
    of_rows(heap, qubits, checks, generators, rows)
}

// The code under trial, and one call on a job.
use codes::code::{Check, Code, Generator, Qubit};
use graph_files::matrix::Matrix;
use graph_files::reading::read_graph;
use moves::job::Job;
use products::product::Product;
use std::alloc::Global;
use std::process::Abort;
use std::test::Fail;

// Three variables and two checks: check 0 has the variables 0 and 1, and check 1 has 1 and 2.
pub(crate) fn example_graph(heap: Global) -> Result<Matrix, Fail> {
    let graph = read_graph(heap, b"TAN\x00\x01\x00\x03\x00\x02\x03\x06")
        .ok()
        .ok_or("refused")?;
    Ok(graph)
}

// The product of that graph with itself: 13 qubits, 6 checks and 6 generators.
// Check 0 holds the qubits 0, 1 and 9, check 1 holds 1, 2 and 10, and check 2 holds 3, 4, 9 and 11.
// Generator 0 holds the qubits 0, 3 and 9, and generator 1 holds 1, 4, 9 and 10.
pub(crate) fn example_code(heap: Global) -> Result<Product<Matrix>, Fail> {
    Ok(Product::of(example_graph(heap)?))
}

// What a job holds.
#[derive(Clone, Copy)]
pub struct State<'a> {
    pub remaining: &'a [u8],
    pub opened: &'a [u8],
    pub correction: &'a [u8],
    pub moves: u32,
}

// A call on a job, with its numbers.
#[derive(Clone, Copy)]
pub enum Call<'a> {
    Open(&'a [u8], &'a [u8]),
    Peel(u32),
    Prune(u32, u32),
    Flip(u32),
}

fn same(rt: &impl Abort, left: &[u8], right: &[u8], case: usize) {
    assert_eq!(rt; left, right, "case {case}");
}

// The number of the case is told where the job does not stand so.
pub(crate) fn stands(rt: &impl Abort, job: &Job<'_>, state: State<'_>, case: usize) {
    same(rt, job.remaining, state.remaining, case);
    same(rt, job.opened, state.opened, case);
    same(rt, job.correction, state.correction, case);
    assert_eq!(rt; job.moves, state.moves, "case {case}");
}

// The number of the question that the call answers with no; nothing where it is accepted.
pub(crate) fn refused<C: Code>(code: &C, job: &mut Job<'_>, call: Call<'_>) -> Option<u8> {
    let refusal = match call {
        Call::Open(syndrome, erasure) => job.open(code, syndrome, erasure).err(),
        Call::Peel(u) => job.peel(code, Check(u)).err(),
        Call::Prune(g, v) => job.prune(code, Generator(g), Qubit(v)).err(),
        Call::Flip(g) => job.flip(code, Generator(g)).err(),
    };
    Some(refusal?.number())
}

// Makes the call on a job that stands as `before`: it must answer with that number, and leave the job as `after`.
pub(crate) fn tries<C: Code>(
    rt: &impl Abort,
    heap: Global,
    code: &C,
    before: State<'_>,
    call: Call<'_>,
    number: Option<u8>,
    after: State<'_>,
    case: usize,
) -> Result<(), Fail> {
    let mut remaining = Vec::from_slice(heap, before.remaining)?;
    let mut opened = Vec::from_slice(heap, before.opened)?;
    let mut correction = Vec::from_slice(heap, before.correction)?;
    let mut job = Job {
        remaining: remaining.as_mut_slice(),
        opened: opened.as_mut_slice(),
        correction: correction.as_mut_slice(),
        moves: before.moves,
    };
    assert_eq!(rt; refused(code, &mut job, call), number, "case {case}");
    stands(rt, &job, after, case);
    Ok(())
}

// Decodes one erasure move by move, on the product of the graph with the checks {0, 1} and {1, 2}, and prints each move and what it leaves.
#![tactic(auto)]

use anyhow::Context;
use codes::code::{Check, Code, Generator, Qubit};
use graph_files::reading::read_graph;
use moves::job::Job;
use patterns::items::contains;
use products::product::Product;
use std::io;

// The graph's file: three variables, two checks, and the variables of each.
const GRAPH: [u8; 11] = *b"TAN\x00\x01\x00\x03\x00\x02\x03\x06";

// Checks 0 and 2 fired.
const SYNDROME: [u8; 1] = *b"\x05";

// Qubits 0, 3 and 9 were lost.
const ERASURE: [u8; 2] = *b"\x09\x02";

fn print_items(rt: &HostRuntime, name: &str, bits: &[u8], count: u32) -> io::Result<()> {
    print!(rt; "{name}")?;
    for k in (0..count).filter(|k| contains(bits, *k)) {
        print!(rt; " {k}")?;
    }
    println!(rt; "")
}

// The output, the code and the job stay three parameters, here and below: a struct that holds the job's `&mut` would be made for this one example.
fn print_job<C: Code>(rt: &HostRuntime, code: &C, job: &Job) -> io::Result<()> {
    print_items(rt, "  remaining", job.remaining, code.checks())?;
    print_items(rt, "  open", job.opened, code.qubits())?;
    print_items(rt, "  correction", job.correction, code.qubits())
}

fn peel<C: Code>(rt: &HostRuntime, code: &C, job: &mut Job, u: Check) -> anyhow::Result<()> {
    let (v, changed) = job.peel(code, u).ok().context("the peel was refused")?;
    let check = u.0;
    let qubit = v.0;
    println!(rt; "peel check {check}: qubit {qubit}, changed {changed}")?;
    print_job(rt, code, job)?;
    Ok(())
}

fn prune<C: Code>(
    rt: &HostRuntime,
    code: &C,
    job: &mut Job,
    g: Generator,
    v: Qubit,
) -> anyhow::Result<()> {
    job.prune(code, g, v).ok().context("the prune was refused")?;
    let generator = g.0;
    let qubit = v.0;
    println!(rt; "prune generator {generator}: qubit {qubit}")?;
    print_job(rt, code, job)?;
    Ok(())
}

fn decode<C: Code>(rt: &HostRuntime, code: &C) -> anyhow::Result<()> {
    let mut remaining = [0; 1];
    let mut opened = [0; 2];
    let mut correction = [0; 2];
    let mut job = Job {
        remaining: &mut remaining,
        opened: &mut opened,
        correction: &mut correction,
        moves: 0,
    };
    job.open(code, &SYNDROME, &ERASURE)
        .ok()
        .context("the opening was refused")?;
    println!(rt; "open")?;
    print_job(rt, code, &job)?;
    prune(rt, code, &mut job, Generator(0), Qubit(0))?;
    peel(rt, code, &mut job, Check(0))?;
    peel(rt, code, &mut job, Check(2))?;
    let moves = job.moves;
    println!(rt; "moves {moves}")?;
    Ok(())
}

fn run(rt: &HostRuntime) -> anyhow::Result<()> {
    let graph = read_graph(rt.alloc(), &GRAPH)
        .ok()
        .context("the graph was refused")?;
    decode(rt, &Product::of(graph))
}

fn main(rt: HostRuntime) -> anyhow::Result<()> {
    run(&rt)
}

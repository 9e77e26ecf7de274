// Reads a graph file on standard input, checks it, and prints what it holds and which product code it makes.
// With the argument `qubits` it also prints the qubits of each check and each generator of that code.
#![tactic(auto)]

use anyhow::anyhow;
use codes::code::Code;
use codes::families::{Checks, Generators};
use graph_files::reading::read_graph;
use graphs::families;
use graphs::families::Variables;
use graphs::graph::Graph;
use inputs::read_up_to;
use matrices::families::{Family, Neighbours};
use products::product::Product;
use refusals::Refusal;
use std::{env, io};

// Of a longer input, this many bytes are the file.
const MOST_INPUT: u64 = 8192;

// How many neighbours each node of the family has.
fn print_sizes<F: Family>(rt: &HostRuntime, name: &str, family: &F) -> io::Result<()> {
    print!(rt; "{name}")?;
    for size in (0..family.count()).filter_map(|u| family.size(u)) {
        print!(rt; " {size}")?;
    }
    println!(rt; "")
}

// The neighbours of each node of the family, a line for each node.
fn print_rows<F: Family + Copy>(rt: &HostRuntime, name: &str, family: F) -> io::Result<()> {
    for u in 0..family.count() {
        print!(rt; "{name} {u}")?;
        for v in Neighbours::of(family, u) {
            print!(rt; " {v}")?;
        }
        println!(rt; "")?;
    }
    Ok(())
}

fn print_graph<G: Graph>(rt: &HostRuntime, graph: &G) -> io::Result<()> {
    let variables = Variables { graph };
    let checks = families::Checks { graph };
    let edges = (0..checks.count())
        .filter_map(|p| checks.size(p))
        .fold(0u32, u32::saturating_add);
    let variable_count = variables.count();
    let check_count = checks.count();
    println!(rt; "graph {variable_count} {check_count} {edges}")?;
    print_sizes(rt, "variable degrees", &variables)?;
    print_sizes(rt, "check degrees", &checks)?;
    print_rows(rt, "check", checks)
}

fn print_code<C: Code>(rt: &HostRuntime, code: &C) -> io::Result<()> {
    let letter = char::from(C::LETTER);
    let qubits = code.qubits();
    let checks = code.checks();
    let generators = code.generators();
    println!(rt; "code {letter} {qubits} {checks} {generators}")
}

fn print_qubits<C: Code>(rt: &HostRuntime, code: &C) -> io::Result<()> {
    print_rows(rt, "code check", Checks { code })?;
    print_rows(rt, "code generator", Generators { code })
}

// Whether the qubits are asked for: by the one argument that there is.
fn wants_qubits(rt: &HostRuntime) -> anyhow::Result<bool> {
    match env::args(rt)?.nth(1) {
        None => Ok(false),
        Some(word) if word.as_str() == "qubits" => Ok(true),
        Some(_) => Err(anyhow!("the only argument is `qubits`")),
    }
}

fn run(rt: &HostRuntime) -> anyhow::Result<()> {
    let qubits = wants_qubits(rt)?;
    let bytes = read_up_to(rt.alloc(), rt.stdin(), MOST_INPUT)?;
    match read_graph(rt.alloc(), bytes.as_slice()) {
        Ok(graph) => {
            print_graph(rt, &graph)?;
            let code = Product::of(graph);
            print_code(rt, &code)?;
            if qubits {
                print_qubits(rt, &code)?;
            }
        }
        Err(Refusal::OutOfMemory) => return Err(anyhow!("there is no memory left")),
        Err(refusal) => {
            let number = refusal.number();
            println!(rt; "refused graph {number}")?;
            eprintln!(rt; "inspect: {refusal}")?;
        }
    }
    Ok(())
}

fn main(rt: HostRuntime) -> anyhow::Result<()> {
    run(&rt)
}

// Products of a graph with itself. With n variables and m checks, the qubit (i, j) of two variables is i * n + j, the qubit (p, q) of two checks
// is n * n + p * m + q, the check (i, q) is i * m + q, and the generator (p, j) is p * n + j.
use crate::telling::{Holds, tells};
use codes::bare::Bare;
use codes::exchanged::Exchanged;
use graph_files::reading::read_graph;
use graphs::cyclic::Cyclic;
use products::product::Product;
use std::test::Fail;
use tabled_codes::tabled::Tabled;

// Three variables and two checks: check 0 has the variables 0 and 1, and check 1 has 1 and 2.
pub const EXAMPLE: &[u8; 11] = b"TAN\x00\x01\x00\x03\x00\x02\x03\x06";

// The pairs of variables are the qubits 0 to 8, and those of checks 9 to 12.
pub const EXAMPLE_PRODUCT: Holds<'static> = Holds {
    letter: b'P',
    qubits: 13,
    checks: &[
        &[0, 1, 9],
        &[1, 2, 10],
        &[3, 4, 9, 11],
        &[4, 5, 10, 12],
        &[6, 7, 11],
        &[7, 8, 12],
    ],
    generators: &[
        &[0, 3, 9],
        &[1, 4, 9, 10],
        &[2, 5, 10],
        &[3, 6, 11],
        &[4, 7, 11, 12],
        &[5, 8, 12],
    ],
};

const EXAMPLE_BARE: Holds<'static> = Holds {
    letter: b'B',
    qubits: 3,
    checks: &[&[0, 1], &[1, 2]],
    generators: &[],
};

// The same with checks and generators exchanged.
fn turned_about(holds: Holds<'_>) -> Holds<'_> {
    Holds {
        letter: b'E',
        qubits: holds.qubits,
        checks: holds.generators,
        generators: holds.checks,
    }
}

#[test]
fn the_product_of_the_example(rt: HostRuntime) -> Result<(), Fail> {
    let graph = read_graph(rt.alloc(), EXAMPLE).ok().ok_or("refused")?;
    let code = Product::of(graph);
    tells(&rt, &code, EXAMPLE_PRODUCT)?;
    let once = Exchanged { code };
    let exchanged = turned_about(EXAMPLE_PRODUCT);
    tells(&rt, &once, exchanged)?;
    // Exchanged twice it is the code itself, but for the letter.
    tells(&rt, &Exchanged { code: once }, turned_about(exchanged))
}

// Written into tables it tells the same, and so does its exchange.
#[test]
fn the_product_of_the_example_in_tables(rt: HostRuntime) -> Result<(), Fail> {
    let graph = read_graph(rt.alloc(), EXAMPLE).ok().ok_or("refused")?;
    let code = Tabled::of(rt.alloc(), Product::of(graph))
        .ok()
        .ok_or("no tables")?;
    tells(&rt, &code, EXAMPLE_PRODUCT)?;
    tells(&rt, &Exchanged { code }, turned_about(EXAMPLE_PRODUCT))
}

#[test]
fn the_product_of_a_cyclic_graph(rt: HostRuntime) -> Result<(), Fail> {
    // Check p has the variables p and p + 1 mod 3, so variable v has the checks v and v - 1 mod 3.
    let graph = Cyclic::new(rt.alloc(), 3, &[0, 1]).ok().ok_or("refused")?;
    let holds = Holds {
        letter: b'P',
        qubits: 18,
        checks: &[
            &[0, 1, 9, 15],
            &[1, 2, 10, 16],
            &[2, 0, 11, 17],
            &[3, 4, 12, 9],
            &[4, 5, 13, 10],
            &[5, 3, 14, 11],
            &[6, 7, 15, 12],
            &[7, 8, 16, 13],
            &[8, 6, 17, 14],
        ],
        generators: &[
            &[0, 3, 9, 11],
            &[1, 4, 10, 9],
            &[2, 5, 11, 10],
            &[3, 6, 12, 14],
            &[4, 7, 13, 12],
            &[5, 8, 14, 13],
            &[6, 0, 15, 17],
            &[7, 1, 16, 15],
            &[8, 2, 17, 16],
        ],
    };
    tells(&rt, &Product::of(graph), holds)
}

#[test]
fn the_bare_code_of_the_example(rt: HostRuntime) -> Result<(), Fail> {
    let graph = read_graph(rt.alloc(), EXAMPLE).ok().ok_or("refused")?;
    let code = Bare { graph };
    tells(&rt, &code, EXAMPLE_BARE)?;
    tells(&rt, &Exchanged { code }, turned_about(EXAMPLE_BARE))
}

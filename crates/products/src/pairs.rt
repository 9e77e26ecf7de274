// The product of two graphs: pairs of their nodes, by number. What a product of a graph with itself tells is told here, once for any two graphs.
ghost use Rattle.std.specs.Prelude.{◌≡◌};
ghost use Rattle.products.specs.Products.{product_of};

use crate::blocks::{InBlock, TwoBlocks};
use crate::steps::{FirstMoves, SecondMoves};
use graphs::families::{Checks, Variables};
use graphs::graph::Graph;
use matrices::families::Family;

type OfCheck<'a, A, B> = TwoBlocks<
    SecondMoves<Variables<'a, A>, Checks<'a, B>>,
    FirstMoves<Variables<'a, A>, Checks<'a, B>>,
>;

type OfGenerator<'a, A, B> = TwoBlocks<
    FirstMoves<Checks<'a, A>, Variables<'a, B>>,
    SecondMoves<Checks<'a, A>, Variables<'a, B>>,
>;

type ByCheck<'a, A, B> = InBlock<
    SecondMoves<Variables<'a, A>, Variables<'a, B>>,
    FirstMoves<Checks<'a, A>, Checks<'a, B>>,
>;

type ByGenerator<'a, A, B> = InBlock<
    FirstMoves<Variables<'a, A>, Variables<'a, B>>,
    SecondMoves<Checks<'a, A>, Checks<'a, B>>,
>;

// The two graphs.
#[derive_where(Clone, Copy)]
pub struct Pairs<'a, A, B>(pub &'a A, pub &'a B);

impl<'a, A: Graph, B: Graph> Pairs<'a, A, B> {
    // Check (i, q) holds (i, j) for each j joined to q, and (p, q) for each p joined to i.
    pub(crate) fn of_check(&self) -> OfCheck<'a, A, B>
        ensures nodes { ⟦<OfCheck<'a, A, B> as Family>⟧.nodes result ≡ (product_of (A.Graph.tanner self.now.0.now) (B.Graph.tanner self.now.1.now)).checks }
        ensures rows { ⟦<OfCheck<'a, A, B> as Family>⟧.rows result ≡ (product_of (A.Graph.tanner self.now.0.now) (B.Graph.tanner self.now.1.now)).of_check }
    {
        let first = Variables { graph: self.0 };
        let second = Checks { graph: self.1 };
        TwoBlocks {
            start: self.0.variables() * self.1.variables(),
            one: SecondMoves { first, second },
            two: FirstMoves { first, second },
        }
    }

    // Generator (p, j) holds (i, j) for each i joined to p, and (p, q) for each q joined to j.
    pub(crate) fn of_generator(&self) -> OfGenerator<'a, A, B>
        ensures nodes { ⟦<OfGenerator<'a, A, B> as Family>⟧.nodes result ≡ (product_of (A.Graph.tanner self.now.0.now) (B.Graph.tanner self.now.1.now)).generators }
        ensures rows { ⟦<OfGenerator<'a, A, B> as Family>⟧.rows result ≡ (product_of (A.Graph.tanner self.now.0.now) (B.Graph.tanner self.now.1.now)).of_generator }
    {
        let first = Checks { graph: self.0 };
        let second = Variables { graph: self.1 };
        TwoBlocks {
            start: self.0.variables() * self.1.variables(),
            one: FirstMoves { first, second },
            two: SecondMoves { first, second },
        }
    }

    // Qubit (i, j) lies in check (i, q) for each q joined to j, and qubit (p, q) in check (i, q) for each i joined to p.
    pub(crate) fn by_check(&self) -> ByCheck<'a, A, B>
        ensures nodes { ⟦<ByCheck<'a, A, B> as Family>⟧.nodes result ≡ (product_of (A.Graph.tanner self.now.0.now) (B.Graph.tanner self.now.1.now)).qubits }
        ensures rows { ⟦<ByCheck<'a, A, B> as Family>⟧.rows result ≡ (product_of (A.Graph.tanner self.now.0.now) (B.Graph.tanner self.now.1.now)).checks_of }
    {
        InBlock {
            one: SecondMoves {
                first: Variables { graph: self.0 },
                second: Variables { graph: self.1 },
            },
            two: FirstMoves {
                first: Checks { graph: self.0 },
                second: Checks { graph: self.1 },
            },
        }
    }

    // Qubit (i, j) lies in generator (p, j) for each p joined to i, and qubit (p, q) in generator (p, j) for each j joined to q.
    pub(crate) fn by_generator(&self) -> ByGenerator<'a, A, B>
        ensures nodes { ⟦<ByGenerator<'a, A, B> as Family>⟧.nodes result ≡ (product_of (A.Graph.tanner self.now.0.now) (B.Graph.tanner self.now.1.now)).qubits }
        ensures rows { ⟦<ByGenerator<'a, A, B> as Family>⟧.rows result ≡ (product_of (A.Graph.tanner self.now.0.now) (B.Graph.tanner self.now.1.now)).generators_of }
    {
        InBlock {
            one: FirstMoves {
                first: Variables { graph: self.0 },
                second: Variables { graph: self.1 },
            },
            two: SecondMoves {
                first: Checks { graph: self.0 },
                second: Checks { graph: self.1 },
            },
        }
    }
}

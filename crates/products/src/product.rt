// The product code of any graph with itself.
ghost use Rattle.std.specs.Prelude.{◌≡◌};
ghost use Rattle.products.specs.Products.{product_of, BlockRows};
ghost use Rattle.products.specs.Evens.{sound_product};

use crate::pairs::Pairs;
use codes::code::{Check, Code, Generator, Qubit};
use graphs::graph::Graph;
use matrices::families::Family;

#[derive(Drop)]
pub struct Product<G> {
    pub graph: G,
}

impl<G: Graph> Product<G> {
    // The product of the graph with itself, whose check and generator matrices are block rows of the graph's matrix.
    pub fn of(graph: G) -> Product<G>
        ensures value { result.graph ≡ graph }
        ensures matrices { BlockRows (G.Graph.tanner graph) (G.Graph.tanner graph) (product_of (G.Graph.tanner graph) (G.Graph.tanner graph)) }
    {
        Product { graph }
    }
}

impl<G: Graph> Code for Product<G> {
    const LETTER: u8 = b'P';

    ghost layout = { λ x. product_of (G.Graph.tanner x.graph) (G.Graph.tanner x.graph) };

    ghost LETTER = { 80 };

    ghost sound = { λ c.
        let t = G.Graph.tanner c.graph in
        let w = G.Graph.wired c.graph in
        sound_product t t w w };

    fn qubits(&self) -> u32 {
        Pairs(&self.graph, &self.graph).by_check().count()
    }

    fn checks(&self) -> u32 {
        Pairs(&self.graph, &self.graph).of_check().count()
    }

    fn generators(&self) -> u32 {
        Pairs(&self.graph, &self.graph).of_generator().count()
    }

    fn check_size(&self, u: Check) -> Option<u32> {
        Pairs(&self.graph, &self.graph).of_check().size(u.0)
    }

    fn generator_size(&self, g: Generator) -> Option<u32> {
        Pairs(&self.graph, &self.graph).of_generator().size(g.0)
    }

    fn checks_of(&self, v: Qubit) -> Option<u32> {
        Pairs(&self.graph, &self.graph).by_check().size(v.0)
    }

    fn generators_of(&self, v: Qubit) -> Option<u32> {
        Pairs(&self.graph, &self.graph).by_generator().size(v.0)
    }

    fn check_qubit(&self, u: Check, k: u32) -> Option<Qubit> {
        let checks = Pairs(&self.graph, &self.graph).of_check();
        let v = checks.neighbour(u.0, k)?;
        Some(Qubit(v))
    }

    fn generator_qubit(&self, g: Generator, k: u32) -> Option<Qubit> {
        let generators = Pairs(&self.graph, &self.graph).of_generator();
        let v = generators.neighbour(g.0, k)?;
        Some(Qubit(v))
    }

    fn qubit_check(&self, v: Qubit, k: u32) -> Option<Check> {
        let qubits = Pairs(&self.graph, &self.graph).by_check();
        let u = qubits.neighbour(v.0, k)?;
        Some(Check(u))
    }

    fn qubit_generator(&self, v: Qubit, k: u32) -> Option<Generator> {
        let qubits = Pairs(&self.graph, &self.graph).by_generator();
        let g = qubits.neighbour(v.0, k)?;
        Some(Generator(g))
    }
}

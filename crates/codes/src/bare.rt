// Any graph as a code with no generators: its variables are the qubits, its checks the checks.
ghost use Rattle.codes.specs.Baring.{bare};
ghost use Rattle.codes.specs.Sounds.{sound_bare};

use crate::code::{Check, Code, Generator, Qubit};
use graphs::graph::{CheckNode, Graph, VariableNode};

#[derive(Drop)]
pub struct Bare<G> {
    pub graph: G,
}

impl<G: Graph> Code for Bare<G> {
    const LETTER: u8 = b'B';

    ghost layout = { λ x. bare (G.Graph.tanner x.graph) };

    ghost LETTER = { 66 };

    ghost sound = { λ c. sound_bare (G.Graph.tanner c.graph) (G.Graph.wired c.graph) };

    fn qubits(&self) -> u32 {
        self.graph.variables()
    }

    fn checks(&self) -> u32 {
        self.graph.checks()
    }

    fn generators(&self) -> u32 {
        0
    }

    fn check_size(&self, u: Check) -> Option<u32> {
        self.graph.check_degree(CheckNode(u.0))
    }

    fn generator_size(&self, _g: Generator) -> Option<u32> {
        None
    }

    fn checks_of(&self, v: Qubit) -> Option<u32> {
        self.graph.variable_degree(VariableNode(v.0))
    }

    fn generators_of(&self, v: Qubit) -> Option<u32> {
        (v.0 < self.graph.variables()).then_some(0)
    }

    fn check_qubit(&self, u: Check, k: u32) -> Option<Qubit> {
        let VariableNode(v) = self.graph.check_neighbour(CheckNode(u.0), k)?;
        Some(Qubit(v))
    }

    fn generator_qubit(&self, _g: Generator, _k: u32) -> Option<Qubit> {
        None
    }

    fn qubit_check(&self, v: Qubit, k: u32) -> Option<Check> {
        let CheckNode(u) = self.graph.variable_neighbour(VariableNode(v.0), k)?;
        Some(Check(u))
    }

    fn qubit_generator(&self, _v: Qubit, _k: u32) -> Option<Generator> {
        None
    }
}

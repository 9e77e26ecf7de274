// Any graph with its variables and its checks exchanged.
ghost use Rattle.graphs.specs.Turning.{turned};
ghost use Rattle.graphs.specs.Turns.{wired_turned};

use crate::graph::{CheckNode, Graph, VariableNode};

#[derive(Drop)]
pub struct Turned<G> {
    pub graph: G,
}

impl<G: Graph> Graph for Turned<G> {
    ghost tanner = { λ t. turned (G.Graph.tanner t.graph) };

    ghost wired = { λ t. wired_turned (G.Graph.wired t.graph) };

    fn variables(&self) -> u32 {
        self.graph.checks()
    }

    fn checks(&self) -> u32 {
        self.graph.variables()
    }

    fn variable_degree(&self, v: VariableNode) -> Option<u32> {
        self.graph.check_degree(CheckNode(v.0))
    }

    fn check_degree(&self, p: CheckNode) -> Option<u32> {
        self.graph.variable_degree(VariableNode(p.0))
    }

    fn variable_neighbour(&self, v: VariableNode, k: u32) -> Option<CheckNode> {
        let VariableNode(p) = self.graph.check_neighbour(CheckNode(v.0), k)?;
        Some(CheckNode(p))
    }

    fn check_neighbour(&self, p: CheckNode, k: u32) -> Option<VariableNode> {
        let CheckNode(v) = self.graph.variable_neighbour(VariableNode(p.0), k)?;
        Some(VariableNode(v))
    }
}

// The two families of nodes of a graph. Two structs and not one with a parameter, since each asks other methods of the graph.
ghost use Rattle.graphs.specs.Shorts.{short_check, short_variable};

use crate::graph::{CheckNode, Graph, VariableNode};
use matrices::families::Family;

// The checks, and the variables of each.
#[derive_where(Clone, Copy)]
pub struct Checks<'a, G> {
    pub graph: &'a G,
}

impl<'a, G: Graph> Family for Checks<'a, G> {
    ghost nodes = { λ s. (G.Graph.tanner s.graph.now).checks };

    ghost rows = { λ s. (G.Graph.tanner s.graph.now).of_check };

    ghost short = { λ s. short_check (G.Graph.wired s.graph.now) };

    fn count(&self) -> u32 {
        self.graph.checks()
    }

    fn size(&self, u: u32) -> Option<u32> {
        self.graph.check_degree(CheckNode(u))
    }

    fn neighbour(&self, u: u32, k: u32) -> Option<u32> {
        let VariableNode(v) = self.graph.check_neighbour(CheckNode(u), k)?;
        Some(v)
    }
}

// The variables, and the checks of each.
#[derive_where(Clone, Copy)]
pub struct Variables<'a, G> {
    pub graph: &'a G,
}

impl<'a, G: Graph> Family for Variables<'a, G> {
    ghost nodes = { λ s. (G.Graph.tanner s.graph.now).variables };

    ghost rows = { λ s. (G.Graph.tanner s.graph.now).of_variable };

    ghost short = { λ s. short_variable (G.Graph.wired s.graph.now) };

    fn count(&self) -> u32 {
        self.graph.variables()
    }

    fn size(&self, u: u32) -> Option<u32> {
        self.graph.variable_degree(VariableNode(u))
    }

    fn neighbour(&self, u: u32, k: u32) -> Option<u32> {
        let CheckNode(p) = self.graph.variable_neighbour(VariableNode(u), k)?;
        Some(p)
    }
}

// A graph that was read from a file: the neighbours of each check and of each variable, in rising order.
ghost use Rattle.std.specs.Prelude.{◌≡◌, true, length};
ghost use Rattle.matrices.specs.Adjacent.{lists};
ghost use Rattle.graphs.specs.Tanners.{counted};
ghost use Rattle.graph_files.specs.Listed.{listed_graph};
ghost use Rattle.graph_files.specs.Built.{wired_listed};

use graphs::graph::{CheckNode, Graph, VariableNode};
use graphs::limits::MOST_NEIGHBOURS;
use matrices::sparse::Sparse;

// The checks are the rows of the edges, the variables their columns.
#[derive(Drop)]
pub struct Matrix {
    pub edges: Sparse<MOST_NEIGHBOURS>,
    ghost checks_in_range: { counted (length (lists edges.relation.rows.nodes)) ≡ true },
    ghost variables_in_range: { counted (length (lists edges.relation.columns.nodes)) ≡ true },
}

impl Graph for Matrix {
    ghost tanner = { λ g. listed_graph (lists g.edges.relation.rows.nodes) (lists g.edges.relation.columns.nodes) };

    ghost wired = { λ g.
        let r = g.edges.relation in
        wired_listed (lists r.rows.nodes) (lists r.columns.nodes) r.by_row r.by_column g.checks_in_range g.variables_in_range g.edges.few_in_rows g.edges.few_in_columns };

    fn variables(&self) -> u32 {
        self.edges.relation.columns.count() as u32
    }

    fn checks(&self) -> u32 {
        self.edges.relation.rows.count() as u32
    }

    fn variable_degree(&self, v: VariableNode) -> Option<u32> {
        self.edges.column_size(v.0)
    }

    fn check_degree(&self, p: CheckNode) -> Option<u32> {
        self.edges.row_size(p.0)
    }

    fn variable_neighbour(&self, v: VariableNode, k: u32) -> Option<CheckNode> {
        let p = self.edges.relation.columns.neighbour(v.0, k)?;
        Some(CheckNode(p))
    }

    fn check_neighbour(&self, p: CheckNode, k: u32) -> Option<VariableNode> {
        let v = self.edges.relation.rows.neighbour(p.0, k)?;
        Some(VariableNode(v))
    }
}

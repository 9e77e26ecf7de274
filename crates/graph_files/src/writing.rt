// The writer of graph files, for any graph.
ghost use Rattle.std.specs.Prelude.{◌≡◌, ◌*◌, ◌<◌, ◌≤◌, length};
ghost use Rattle.refusals.specs.Outputs.{answered, written};
ghost use Rattle.patterns.specs.Patterns.{width};
ghost use Rattle.graphs.specs.Tanners.{most_nodes};
ghost use Rattle.graph_files.specs.Files.{head_of, row_of, rows_of, file_of, WrittenIsRead};

use graphs::families::Checks;
use graphs::graph::{CheckNode, Graph};
use matrices::families::Neighbours;
use patterns::items::toggle;
use patterns::shapes::width;
use refusals::Refusal;

const HEAD: usize = 9;

// The mark, the version and the two counts.
fn write_head(variables: u32, checks: u32, out: &mut [u8])
    requires variables_le_most_nodes { variables ≤ most_nodes }
    requires checks_le_most_nodes { checks ≤ most_nodes }
    requires out_len { length out.old ≡ 9 }
    ensures { out.new ≡ head_of variables checks }
{
    let [n1, n0] = (variables as u16).to_be_bytes();
    let [m1, m0] = (checks as u16).to_be_bytes();
    out.copy_from_slice(&[b'T', b'A', b'N', 0, 1, n1, n0, m1, m0]);
}

// The pattern of the variables of check p.
fn write_row<G: Graph>(graph: &G, p: CheckNode, row: &mut [u8])
    requires p_bound { p.0 < (G.tanner graph.now).checks }
    requires row_len { length row.old ≡ width (G.tanner graph.now).variables }
    ensures { row.new ≡ row_of (G.tanner graph.now) p.0 }
{
    row.fill(0);
    for v in Neighbours::of(Checks { graph }, p.0) {
        toggle(row, v);
    }
}

// The patterns of all checks, one after another.
fn write_rows<G: Graph>(graph: &G, rows: &mut [u8])
    requires { length rows.old ≡ (G.tanner graph.now).checks * width (G.tanner graph.now).variables }
    ensures { rows.new ≡ rows_of (G.tanner graph.now) (G.tanner graph.now).checks }
{
    let width = width(graph.variables());
    // No loop over chunks_exact_mut: a proof knows nothing of the bytes that it wrote.
    for p in 0..graph.checks() {
        let from = width * p as usize;
        write_row(graph, CheckNode(p), &mut rows[from..from + width]);
    }
}

// Writes the file of the graph at the front of `out`; answers how many bytes it wrote.
pub fn write_graph<G: Graph>(graph: &G, out: &mut [u8]) -> Result<usize, Refusal>
    ensures value { result ≡ answered (file_of (G.tanner graph.now)) out.old }
    ensures after { out.new ≡ written (file_of (G.tanner graph.now)) out.old }
    ensures reads_back { WrittenIsRead (G.tanner graph.now) }
{
    let variables = graph.variables();
    let checks = graph.checks();
    let size = HEAD + checks as usize * width(variables);
    if out.len() < size {
        return Err(Refusal::OutputTooShort);
    }
    write_head(variables, checks, &mut out[0..HEAD]);
    write_rows(graph, &mut out[HEAD..size]);
    Ok(size)
}

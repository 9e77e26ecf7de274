// The writer: the file at the front of the output, or an output that is too short and stays as it was.
use crate::reading_trials::EXAMPLE;
use graph_files::reading::read_graph;
use graph_files::writing::write_graph;
use graphs::turned::Turned;
use std::test::Fail;

#[test]
fn the_example_is_written_back(rt: HostRuntime) -> Result<(), Fail> {
    let graph = read_graph(rt.alloc(), EXAMPLE).ok().ok_or("refused")?;

    let mut exact = [0xEE; 11];
    assert_eq!(rt; write_graph(&graph, &mut exact).ok(), Some(11));
    assert_eq!(rt; exact, *EXAMPLE);

    let mut longer = [0xEE; 13];
    assert_eq!(rt; write_graph(&graph, &mut longer).ok(), Some(11));
    assert_eq!(rt; longer, *b"TAN\x00\x01\x00\x03\x00\x02\x03\x06\xEE\xEE");

    let mut short = [0xEE; 10];
    assert_eq!(rt;
        write_graph(&graph, &mut short)
            .err()
            .ok_or("not refused")?
            .number(),
        17
    );
    assert_eq!(rt; short, [0xEE; 10]);

    // Two variables and three checks: check 0 has the variable 0, check 1 has 0 and 1, and check 2 has 1.
    let mut turned = [0xEE; 13];
    assert_eq!(rt; write_graph(&Turned { graph }, &mut turned).ok(), Some(12));
    assert_eq!(rt; turned, *b"TAN\x00\x01\x00\x02\x00\x03\x01\x03\x02\xEE");
    Ok(())
}

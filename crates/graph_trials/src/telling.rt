// Whether a graph tells just the neighbours that are expected of it, from both sides.
use graphs::families::{Checks, Variables};
use graphs::graph::Graph;
use matrices::families::{Family, Neighbours};
use std::process::Abort;
use std::test::Fail;

// The checks of each variable, and the variables of each check, in the order in which the graph tells them.
#[derive(Drop)]
pub struct Edges<'a> {
    pub of_variables: &'a [&'a [u32]],
    pub of_checks: &'a [&'a [u32]],
}

// The neighbours of a node, one by one and by the iterator, and nothing after the last.
fn node_tells<F: Family + Copy>(
    rt: &impl Abort,
    family: F,
    u: u32,
    expected: &[u32],
) -> Result<(), Fail> {
    let size = family.size(u).ok_or("no degree")?;
    assert_eq!(rt; size as usize, expected.len(), "node {u}");
    for (k, v) in (0..size).zip(expected.iter()) {
        assert_eq!(rt; family.neighbour(u, k), Some(*v), "node {u}");
    }
    let mut told = Neighbours::of(family, u);
    for v in expected {
        assert_eq!(rt; told.next(), Some(*v), "node {u}");
    }
    assert!(rt; told.next().is_none(), "node {u}");
    assert!(rt; family.neighbour(u, size).is_none(), "node {u}");
    assert!(rt; family.neighbour(u, u32::MAX).is_none(), "node {u}");
    Ok(())
}

fn family_tells<F: Family + Copy>(
    rt: &impl Abort,
    family: F,
    expected: &[&[u32]],
) -> Result<(), Fail> {
    let count = family.count();
    assert_eq!(rt; count as usize, expected.len());
    for (u, row) in (0..count).zip(expected.iter()) {
        node_tells(rt, family, u, *row)?;
    }
    assert!(rt; family.size(count).is_none());
    assert!(rt; family.neighbour(count, 0).is_none());
    assert!(rt; family.size(u32::MAX).is_none());
    Ok(())
}

pub(crate) fn tells<G: Graph>(rt: &impl Abort, graph: &G, edges: &Edges<'_>) -> Result<(), Fail> {
    family_tells(rt, Variables { graph }, edges.of_variables)?;
    family_tells(rt, Checks { graph }, edges.of_checks)
}

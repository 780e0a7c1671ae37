//! Graphs whose components are known.

use crate::compare::{expect_same, same};
use dv_cycles::{Graph, strong_components};
use std::process::Abort;

/// A graph by the edges of each node.
fn graph_of<R: Abort + AllocGlobal>(rt: &R, lists: &[&[usize]]) -> Graph {
    let mut graph = Graph::new(rt.alloc());
    for targets in lists {
        graph.push_node(targets).expect(rt, "memory");
    }
    graph
}

/// A row of so many nodes, and the edges of the last one.
fn chain<R: Abort + AllocGlobal>(rt: &R, nodes: usize, last: &[usize]) -> Graph {
    let mut graph = Graph::new(rt.alloc());
    for node in 1..nodes {
        graph.push_node(&[node]).expect(rt, "memory");
    }
    graph.push_node(last).expect(rt, "memory");
    graph
}

/// The components of a graph, and the test fails where an edge leads out of it.
fn components_of<R: Abort + AllocGlobal>(rt: &R, name: &str, graph: &Graph) -> Vec<usize> {
    assert!(rt; graph.is_closed(), "{name}");
    strong_components(rt.alloc(), graph).expect(rt, "memory")
}

/// Graphs by the edges of each node, and the number of each node's component.
const GRAPHS: [(&str, &[&[usize]], &[usize]); 9] = [
    ("no node", &[], &[]),
    ("a node alone", &[&[]], &[0]),
    ("a node that leads to itself", &[&[0]], &[0]),
    ("a path", &[&[1], &[2], &[]], &[2, 1, 0]),
    ("a path backwards", &[&[], &[0], &[1]], &[0, 1, 2]),
    (
        "two cycles joined by an edge",
        &[&[1], &[0, 2], &[3], &[2]],
        &[1, 1, 0, 0],
    ),
    (
        "a chain between two cycles",
        &[&[1], &[0, 2], &[3], &[4], &[3]],
        &[2, 2, 1, 0, 0],
    ),
    (
        "every edge",
        &[&[0, 1, 2], &[0, 1, 2], &[0, 1, 2]],
        &[0, 0, 0],
    ),
    (
        "cycles within a cycle",
        &[&[1, 4], &[2], &[1, 3], &[0], &[]],
        &[1, 1, 1, 1, 0],
    ),
];

fn same_components<R: Abort + AllocGlobal>(
    rt: &R,
    name: &str,
    lists: &[&[usize]],
    numbers: &[usize],
) {
    let graph = graph_of(rt, lists);
    let found = components_of(rt, name, &graph);
    expect_same(rt, name, found.as_slice(), numbers);
}

#[test]
fn components_are_numbered_as_they_are_done(rt: HostRuntime) {
    for (name, lists, numbers) in GRAPHS {
        same_components(&rt, name, lists, numbers);
    }
}

#[test]
fn an_edge_may_lead_out_of_the_graph(rt: HostRuntime) {
    same!(rt; graph_of(&rt, &[&[1]]).is_closed(), false);
    same!(rt; graph_of(&rt, &[&[1], &[]]).is_closed(), true);
}

#[test]
fn a_long_path_is_found_without_recursion(rt: HostRuntime) {
    let graph = chain(&rt, 700_000, &[]);
    let numbers = components_of(&rt, "a long path", &graph);
    same!(rt; numbers.first(), Some(&699_999));
    same!(rt; numbers.last(), Some(&0));
}

#[test]
fn a_long_cycle_is_one_component(rt: HostRuntime) {
    let graph = chain(&rt, 100_000, &[0]);
    let numbers = components_of(&rt, "a long cycle", &graph);
    let zeros = vec![in rt.alloc(); 0; 100_000].expect(&rt, "memory");
    same!(rt; numbers.as_slice() == zeros.as_slice(), true);
}

use crate::asserts::same;
use connect_gen::make;
use graph_core::Kind;
use graph_text::write_graph;
use std::alloc::Global;
use std::process::Abort;
use std::test::Fail;

// The kind, the nodes and the number of a graph, and its plain text by another program.
const GRAPHS: [(Kind, u32, u32, &[u8]); 3] = [
    (
        Kind::Undirected,
        2,
        0,
        b"graph undirected\nnode n1\nnode n2\nedge n1 n2\nedge n1 n2\nedge n1 n2\nedge n1 n2\nedge n1 n2\nedge n1 n2\nedge n1 n2\nend\n",
    ),
    (
        Kind::Undirected,
        3,
        7,
        b"graph undirected\nnode n1\nnode n2\nnode n3\nedge n1 n2\nedge n2 n3\nedge n1 n3\nedge n2 n3\nedge n1 n2\nedge n1 n2\nedge n2 n3\nedge n1 n3\nedge n1 n2\nedge n1 n3\nedge n1 n3\nend\n",
    ),
    (
        Kind::Directed,
        4,
        4_294_967_295,
        b"graph directed\nnode n1\nnode n2\nnode n3\nnode n4\narc n1 n2\narc n1 n3\narc n2 n4\narc n1 n4\narc n2 n4\narc n1 n3\narc n1 n2\narc n2 n3\narc n2 n4\narc n1 n4\narc n1 n4\narc n2 n3\narc n2 n4\narc n2 n4\narc n3 n4\nend\n",
    ),
];

fn are_made(rt: &impl Abort, alloc: Global, rows: &[(Kind, u32, u32, &[u8])]) -> Result<(), Fail> {
    for (kind, nodes, number, text) in rows {
        if *nodes < 2 || *nodes > 128 {
            return Err("a row has too few nodes or too many".into());
        }
        let graph = make(alloc, *kind, *nodes, *number)?;
        let written = write_graph(alloc, &graph)?;
        same(rt, &written.as_slice(), text, &(nodes, number));
    }
    Ok(())
}

#[test]
fn graphs_are_made_from_numbers(rt: HostRuntime) -> Result<(), Fail> {
    are_made(&rt, rt.alloc(), &GRAPHS)
}

//! Graphs of several tests, and how a test reads one.
#![tactic(auto)]

ghost use Rattle.std.specs.Prelude.{IfOk};
ghost use Rattle.graph_core.specs.Graph.{IsWithinSize};

use graph_core::Graph;
use graph_text::read_graph_alone;
use std::alloc::Global;
use std::test::Fail;

pub const SQUARE: &[u8] =
    b"graph undirected\nnode a\nnode b\nnode c\nnode d\nedge a b\nedge b d\nedge a c\nedge c d\nend\n";

/// The complete graph on four nodes.
pub const K4: &[u8] =
    b"graph undirected\nnode a\nnode b\nnode c\nnode d\nedge a b\nedge a c\nedge a d\nedge b c\nedge b d\nedge c d\nend\n";

/// The complete graph on five nodes.
pub const K5: &[u8] =
    b"graph undirected\nnode a\nnode b\nnode c\nnode d\nnode e\nedge a b\nedge a c\nedge a d\nedge a e\nedge b c\nedge b d\nedge b e\nedge c d\nedge c e\nedge d e\nend\n";

/// Each ordered pair of three nodes.
pub const COMPLETE: &[u8] =
    b"graph directed\nnode a\nnode b\nnode c\narc a b\narc a c\narc b a\narc b c\narc c a\narc c b\nend\n";

pub const ONE_NODE: &[u8] = b"graph undirected\nnode a\nend\n";

pub const ONE_NODE_OF_ARCS: &[u8] = b"graph directed\nnode a\nend\n";

pub const EDGE: &[u8] = b"graph undirected\nnode a\nnode b\nedge a b\nend\n";

pub const ARC: &[u8] = b"graph directed\nnode a\nnode b\narc a b\nend\n";

pub const TWO_ALONE: &[u8] = b"graph directed\nnode a\nnode b\nend\n";

pub const THREE_ALONE: &[u8] = b"graph undirected\nnode a\nnode b\nnode c\nend\n";

pub const FOUR_ALONE: &[u8] = b"graph undirected\nnode a\nnode b\nnode c\nnode d\nend\n";

/// Two arcs out of one node.
pub const OUT_STAR: &[u8] = b"graph directed\nnode a\nnode b\nnode c\narc a b\narc a c\nend\n";

/// No arc leads to the last node.
pub const UNREACHED: &[u8] = b"graph directed\nnode a\nnode b\nnode c\narc a b\narc c b\nend\n";

pub const PATH: &[u8] = b"graph undirected\nnode a\nnode b\nnode c\nedge a b\nedge b c\nend\n";

pub const TRIANGLE: &[u8] =
    b"graph undirected\nnode a\nnode b\nnode c\nedge a b\nedge b c\nedge a c\nend\n";

/// A ring of twelve nodes and four chords, with comments, tabs and CR LF.
pub const BACKBONE: &[u8] =
    b"# backbone, ring and four chords\r\ngraph undirected\r\n\r\nnode s1\r\nnode s2\r\nnode s3\r\nnode s4\r\nnode s5\r\nnode s6\r\nnode s7\r\nnode s8\r\nnode s9\r\nnode s10\r\nnode s11\r\nnode s12\r\n# ring\r\nedge\ts1\ts2\r\nedge\ts2\ts3\r\nedge\ts3\ts4\r\nedge\ts4\ts5\r\nedge\ts5\ts6\r\nedge\ts6\ts7\r\nedge\ts7\ts8\r\nedge\ts8\ts9\r\nedge\ts9\ts10\r\nedge\ts10\ts11\r\nedge\ts11\ts12\r\nedge\ts12\ts1\r\n# chords\r\nedge\ts1\ts7\r\nedge\ts2\ts8\r\nedge\ts3\ts9\r\nedge\ts4\ts10\r\nend\r\n";

/// The graph of a text, which is within the limits.
pub fn graph_of(alloc: Global, text: &[u8]) -> Result<Graph, Fail>
    ensures { IfOk result (λ graph. IsWithinSize graph) }
{
    match read_graph_alone(alloc, text) {
        Ok(graph) => Ok(graph),
        Err(_) => Err("no graph was read".into()),
    }
}

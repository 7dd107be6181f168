//! Graphs of several tests.

pub const ONE_NODE: &[u8] = b"graph undirected\nnode a\nend\n";

pub const ARCS: &[u8] =
    b"graph directed\nnode a\nnode b\nnode c\narc a b\narc b a\narc b c\narc a c\narc c b\nend\n";

/// Two arcs into one node.
pub const INTO_ONE: &[u8] = b"graph directed\nnode x\nnode y\nnode z\narc x y\narc z y\nend\n";

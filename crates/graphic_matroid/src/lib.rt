//! The forests of a graph as the free sets of a matroid; components; disjoint forests with the most lines.
#![tactic(auto)]

mod classes;
mod component;
mod forests;
mod graphic;

pub use component::{components, graph_components};
pub use forests::{Forests, most_forests, no_more_lines};
pub use graphic::{Graphic, GrowingForest};

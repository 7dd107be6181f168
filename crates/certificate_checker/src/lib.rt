//! The checker: whether a text is a certificate that proves itself right for a graph.
#![tactic(auto)]

mod answer;
mod arborescences;
mod augment;
mod connected;
mod copies;
mod cut_tree;
mod decide;
mod dijoin;
mod families;
mod flow;
mod forests;
mod law;
mod marks;
mod orient;
mod parts;
mod reach;
mod rejection;
mod trees;

pub use answer::check;
pub use law::one_answer;
pub use rejection::Rejection;

//! The min-max problems of connectivity: what is asked, what answers it, and weak duality.
#![tactic(auto)]

mod arborescences;
mod ask;
mod augment;
mod augment_arcs;
mod cert;
mod certified;
mod certify;
mod dijoin;
mod flow;
mod forests;
mod orient;
mod problem;
mod trees;
mod verb;

pub use arborescences::ArborescencesAsk;
pub use ask::{Ask, Misfit, unfit};
pub use augment::AugmentAsk;
pub use augment_arcs::AugmentArcsAsk;
pub use cert::{Body, Cert, Family, ForestDual, PartsDual, Way};
pub use certified::{Certified, best};
pub use certify::{Certify, certificate};
pub use dijoin::{DijoinAsk, DijoinOutcome, dijoin_certificate, no_dijoin};
pub use flow::FlowAsk;
pub use forests::ForestsAsk;
pub use orient::{OrientOutcome, no_orientation, orientation_certificate};
pub use problem::Problem;
pub use trees::TreesAsk;
pub use verb::Verb;

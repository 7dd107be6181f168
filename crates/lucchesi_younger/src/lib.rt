//! Least dijoins, by costs that are raised arc by arc, of the arcs of the dijoin by one at a time (Lucchesi and Younger).
#![tactic(auto)]

mod change;
mod dual;
mod force;
mod held;
mod marks;
mod raise;
mod scan;
mod search;
mod solver;
mod start;
mod work;

pub use solver::dijoin;

//! Tests of the libraries that solve, each through its public calls.
#![tactic(auto)]

#[cfg(test)]
mod arc_augmentation;
#[cfg(test)]
mod arc_splitting;
#[cfg(test)]
mod asserts;
#[cfg(test)]
mod augmentation;
#[cfg(test)]
mod branchings;
#[cfg(test)]
mod cut_functions;
#[cfg(test)]
mod dicuts;
#[cfg(test)]
mod dijoins;
#[cfg(test)]
mod flows;
#[cfg(test)]
mod forests;
#[cfg(test)]
mod generated;
#[cfg(test)]
mod large;
#[cfg(test)]
mod matroids;
#[cfg(test)]
mod orientation;
#[cfg(test)]
mod sides;
#[cfg(test)]
mod splitting;
#[cfg(test)]
mod stars;
#[cfg(test)]
mod trees_of_cuts;
#[cfg(test)]
mod walks;

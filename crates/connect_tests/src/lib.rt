//! Tests of the whole program over memory: words and bytes in, bytes and an exit number out.
#![tactic(auto)]

#[cfg(test)]
mod answers;
#[cfg(test)]
mod calls;
#[cfg(test)]
mod checks;
#[cfg(test)]
mod examples;
#[cfg(test)]
mod most_nodes;
#[cfg(test)]
mod run;
#[cfg(test)]
mod solved;
#[cfg(test)]
mod streams;
#[cfg(test)]
mod trials;

//! Tests of the libraries that read, write and check, each through its public calls.
#![tactic(auto)]

#[cfg(test)]
mod asserts;
#[cfg(test)]
mod certificates;
#[cfg(test)]
mod checks;
#[cfg(test)]
mod graph_texts;
#[cfg(test)]
mod graphs;
#[cfg(test)]
mod reasons;
#[cfg(test)]
mod side_words;
#[cfg(test)]
mod streams;
#[cfg(test)]
mod words;

//! Tests of values, of promises, and of evaluation over small graphs, by bodies that do what a table says.
#![tactic(auto)]

#[cfg(test)]
mod graphs;
#[cfg(test)]
mod promises;
#[cfg(test)]
mod values;

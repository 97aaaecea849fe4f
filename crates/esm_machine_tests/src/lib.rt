//! Tests of `esm_machine` over sites in memory, whose files are read from their texts, of a new engine of bodies, and of loads
//! by themselves.
#![tactic(auto)]

#[cfg(test)]
mod asks;
#[cfg(test)]
mod engine;
#[cfg(test)]
mod several_loads;
#[cfg(test)]
mod site;
#[cfg(test)]
mod store;

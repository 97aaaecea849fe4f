//! Tests of the examples for callers, and of workers that fetch over a module map.
#![tactic(auto)]

#[cfg(test)]
mod exports;
#[cfg(test)]
mod fetches;
#[cfg(test)]
mod import_maps;
#[cfg(test)]
mod pages;
#[cfg(test)]
mod workers;

//! Tests of linking over small sites, whose texts are read by the parser.
#![tactic(auto)]

#[cfg(test)]
mod building;
#[cfg(test)]
mod exports;
#[cfg(test)]
mod linking;
#[cfg(test)]
mod records;
#[cfg(test)]
mod sites;

//! Tests of names, with ample memory: import maps, what specifiers resolve to, what exports denote.
#![tactic(auto)]

#[cfg(test)]
mod exports;
#[cfg(test)]
mod import_maps;
#[cfg(test)]
mod reading;
#[cfg(test)]
mod specifiers;

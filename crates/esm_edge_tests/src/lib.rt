//! Tests of texts, and of the edges: the words that the program is given, sources of files, generated input, and sinks.
#![tactic(auto)]

#[cfg(test)]
mod generated;
#[cfg(test)]
mod ports;
#[cfg(test)]
mod texts;
#[cfg(test)]
mod words;

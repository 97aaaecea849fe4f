//! Tests of what module texts say: their tokens, their expressions, whether they are module texts, and their entries; and of
//! records of what was taken.
#![tactic(auto)]

#[cfg(test)]
mod entries;
#[cfg(test)]
mod expressions;
#[cfg(test)]
mod grammar_rows;
#[cfg(test)]
mod records;
#[cfg(test)]
mod telling;
#[cfg(test)]
mod tokens;
#[cfg(test)]
mod verdicts;

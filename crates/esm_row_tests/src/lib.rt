//! Tests of what names, expressions and functions do: scopes, expressions, the rows of functions, whose texts are read by the
//! parser, and the machine that runs them.
#![tactic(auto)]

#[cfg(test)]
mod calls;
#[cfg(test)]
mod expressions;
#[cfg(test)]
mod rows;
#[cfg(test)]
mod scopes;
#[cfg(test)]
mod words;

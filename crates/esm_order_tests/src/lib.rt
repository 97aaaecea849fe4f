//! Tests of sites in every order in which their fetches may end: graphs that await, and calls of `import()`; and over sources that
//! take their time.
#![tactic(auto)]

#[cfg(test)]
mod awaits;
#[cfg(test)]
mod dynamic;
#[cfg(test)]
mod orders;
#[cfg(test)]
mod sleepy;
#[cfg(test)]
mod sleepy_runs;
#[cfg(test)]
mod standard;
#[cfg(test)]
mod worked;

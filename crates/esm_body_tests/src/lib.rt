//! Tests of bodies of modules: what each form does, how many steps it takes, and what stops a run that goes on too long.
#![tactic(auto)]

#[cfg(test)]
mod calls;
#[cfg(test)]
mod graphs;
#[cfg(test)]
mod large_blocks;
#[cfg(test)]
mod limits;
#[cfg(test)]
mod names;
#[cfg(test)]
mod running;
#[cfg(test)]
mod steps;
#[cfg(test)]
mod values;

//! Tests of the lock and of the module map, in one thread and in several.
#![tactic(auto)]

#[cfg(test)]
mod asking;
#[cfg(test)]
mod calls;
#[cfg(test)]
mod lock;
#[cfg(test)]
mod module_map;
#[cfg(test)]
mod one_caller;
#[cfg(test)]
mod telling;
#[cfg(test)]
mod turns;

// What code under way sees.
use crate::engine::Engine;
use crate::importer::Importer;
use crate::work::Activation;
use esm_env::Envs;
use esm_promise::Promises;
use esm_values::Errors;
use std::alloc::Global;

/// A body under way, with all that it reads and writes.
#[derive(Drop)]
pub(crate) struct Inside<'a, I: Importer> {
    pub(crate) alloc: Global,
    pub(crate) code: &'a mut Activation,
    pub(crate) engine: &'a mut Engine,
    pub(crate) errors: &'a mut Errors,
    pub(crate) envs: &'a mut Envs,
    pub(crate) promises: &'a mut Promises,
    pub(crate) imports: &'a mut I,
}

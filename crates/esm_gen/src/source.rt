// A source of the modules that two numbers generate.
ghost use Rattle.std.specs.Prelude.{◌≡◌, ◌≢◌, ◌<◌, ◌≤◌, ◌^◌, ℕ, List, Some, Err, [], decimal, length, IfOk, option_copied, option_map};
ghost use Rattle.esm_base.specs.declared.limits.TheConstants.{MAX_BODY_BYTES};
ghost use Rattle.std.proofs.Common.{sym};
ghost use Rattle.esm_ports.specs.Asks.{failed_count};
ghost use Rattle.esm_ports.specs.Source.{IsToldBy};
ghost use Rattle.esm_gen.specs.Generated.{generated_at, module_url};
ghost use Rattle.esm_gen.specs.Held.{IsNumberOf};

use crate::modules::{module_text, module_url};
use esm_base::{MAX_BODY_BYTES, Memory, Text};
use esm_ports::{Asks, FetchEnd, Source};
use std::alloc::Global;

// What stands in a URL where the number of a module would.
fn digits_of(url: &str) -> Option<&str>
    ensures { (i : ℕ) → url.now ≡ module_url i → option_copied result ≡ Some (decimal i) }
{
    url.strip_prefix("https://gen.test/m")?.strip_suffix(".js")
}

// The number of the module with this URL; None where no module has it.
fn number_of(alloc: Global, url: &str) -> Result<Option<u32>, Memory>
    ensures { IfOk result (IsNumberOf url.now) }
{
    let Some(digits) = digits_of(url) else {
        return Ok(None);
    };
    let Ok(number) = u32::from_str_radix(digits, 10) else {
        return Ok(None);
    };
    let named = module_url(alloc, u64::from(number))?;
    if named.as_str() == url {
        Ok(Some(number))
    } else {
        Ok(None)
    }
}

// The text of the module with this URL, made now; None where there is no such module.
fn made_at(alloc: Global, start: u32, count: u32, url: &str) -> Result<Option<Vec<u8>>, Memory>
    ensures { IfOk result (λ found. option_map (λ body. body.items) found
        ≡ generated_at start count url.now) }
{
    let Some(number) = number_of(alloc, url)? else {
        return Ok(None);
    };
    if number >= count {
        return Ok(None);
    }
    let text = module_text(alloc, u64::from(start), u64::from(count), u64::from(number))?;
    Ok(Some(text.into_bytes()))
}

// What a fetch of this URL answers.
fn body_at(alloc: Global, start: u32, count: u32, url: &str) -> Result<Vec<u8>, FetchEnd>
    ensures told { IsToldBy (generated_at start count) url.now result }
    ensures short { IfOk result (λ body. length body.items ≤ MAX_BODY_BYTES) }
    ensures sure { result ≢ Err FetchEnd.Failed }
{
    match made_at(alloc, start, count, url)? {
        Some(mut body) => {
            body.truncate(MAX_BODY_BYTES);
            Ok(body)
        }
        None => Err(FetchEnd::Absent),
    }
}

/// A source of the modules that two numbers generate, which never fails. It holds no text: each is made when it is fetched.
#[derive(Drop)]
pub struct GeneratedSource {
    /// The start of the generation.
    pub start: u32,
    /// How many modules there are.
    pub count: u32,
    /// What was asked so far.
    pub asked: Asks,
    pub ghost sure: { failed_count asked ≡ 0 },
}

impl GeneratedSource {
    /// A source of the modules 0 to `count` - 1 that `start` generates, which wasn't asked for anything. It takes no memory.
    pub fn new(alloc: Global, start: u32, count: u32) -> GeneratedSource
        ensures start { result.start ≡ start }
        ensures count { result.count ≡ count }
        ensures asked { result.asked ≡ [] }
    {
        GeneratedSource {
            start,
            count,
            asked: Asks::new(alloc),
        }
    }
}

impl Source for GeneratedSource {
    ghost asked = { λ s. s.asked };

    ghost holds = { λ s. Some (generated_at s.start s.count) };

    ghost faults = { λ s. 0 };

    ghost counted = { λ s. sym s.sure };

    fn fetch(&mut self, alloc: Global, url: &str) -> Result<Vec<u8>, FetchEnd> {
        let copy = Text::copy(alloc, url)?;
        let answer = body_at(alloc, self.start, self.count, url);
        self.asked.note(copy, answer)
    }

    fn faults(&self) -> u64 {
        0
    }
}

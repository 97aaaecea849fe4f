// The record of what a source was asked.
ghost use Rattle.std.specs.Prelude.{◌≡◌, ◌+◌, [], ◌∷◌, ◌++◌, ◌≤◌, ◌<◌, ◌^◌, OnOk, OnErr, length};
ghost use Rattle.esm_ports.specs.Asks.{failed_count, failed_kind, asks_with};
ghost use Rattle.esm_ports.specs.Source.{HandsOn, asked_after, kind_of};

use crate::{AskKind, Asked, FetchEnd};
use esm_base::{Memory, Text};
use std::alloc::Global;
use std::marker::Model;

// How many failures a fetch that was answered so is.
fn failures(kind: AskKind) -> u64
    ensures { result ≡ failed_kind kind }
{
    match kind {
        AskKind::Body => 0,
        AskKind::Absent => 0,
        AskKind::Failed => 1,
    }
}

// How an answer is recorded, if it is.
fn kind_of(answer: &Result<Vec<u8>, FetchEnd>) -> Option<AskKind>
    ensures { result ≡ kind_of answer.now }
{
    match answer {
        Ok(_) => Some(AskKind::Body),
        Err(FetchEnd::Absent) => Some(AskKind::Absent),
        Err(FetchEnd::Failed) => Some(AskKind::Failed),
        Err(FetchEnd::Memory) => None,
    }
}

/// What a source was asked, in order, with a count of the fetches that failed.
#[derive(Drop)]
pub struct Asks {
    items: Vec<Asked>,
    failed: u64,
}

impl Model for Asks {
    ghost use Rattle.std.specs.Prelude.{◌≡◌, List};
    ghost use Rattle.esm_ports.specs.declared.asked.Asked.{Asked};
    ghost use Rattle.esm_ports.specs.Asks.{failed_count};

    ghost Value = { List Asked };

    ghost view = { λ a. a.items.items };

    ghost invariant = { λ a. a.failed ≡ failed_count a.items.items };
}

impl Asks {
    /// Nothing was asked. It doesn't allocate.
    pub fn new(alloc: Global) -> Asks
        ensures { result ≡ [] }
    {
        Asks {
            items: Vec::new(alloc),
            failed: 0,
        }
    }

    /// Adds a fetch at the end. After a refusal the record is as before.
    pub fn add(&mut self, url: Text, kind: AskKind) -> Result<(), Memory>
        ensures ok { OnOk result (self.new ≡ asks_with self.old url kind) }
        ensures err { OnErr result (self.new ≡ self.old) }
        ensures count { OnOk result (
            failed_count self.new ≡ failed_count self.old + failed_kind kind) }
    {
        self.items.push(Asked { url, kind })?;
        self.failed += failures(kind);
        Ok(())
    }

    /// Adds how a fetch was answered, unless memory ran out, and hands the answer on. Where memory runs out here, that is
    /// the answer, and the record is as before.
    pub fn note(
        &mut self,
        url: Text,
        answer: Result<Vec<u8>, FetchEnd>,
    ) -> Result<Vec<u8>, FetchEnd>
        ensures asked { self.new ≡ asked_after self.old url result }
        ensures answer { HandsOn answer result }
    {
        let Some(kind) = kind_of(&answer) else {
            return answer;
        };
        match self.add(url, kind) {
            Ok(()) => answer,
            Err(Memory) => Err(FetchEnd::Memory),
        }
    }

    /// How many fetches were answered.
    pub fn len(&self) -> usize
        ensures len { result ≡ length self.now }
        ensures small { result < 2 ^ 63 }
    {
        self.items.len()
    }

    /// How many of them failed.
    pub fn failed(&self) -> u64
        ensures { result ≡ failed_count self.now }
    {
        self.failed
    }

    /// The fetches in order.
    pub fn as_slice(&self) -> &[Asked]
        ensures { result.now ≡ self.now }
    {
        self.items.as_slice()
    }
}

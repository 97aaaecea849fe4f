//! What an editor or a preview wants: a source that is the text in a window, and a sink that is a page of its own.
ghost use Rattle.std.specs.Prelude.{◌≡◌, []};

use esm_base::{MAX_BODY_BYTES, Text};
use esm_ports::{AskKind, Asks, FetchEnd, Sink, SinkEnd, Source};
use std::alloc::Global;
use std::marker::Model;

/// A source of one text, as an editor holds it. Nothing stands at any other URL.
#[derive(Drop)]
pub struct OpenText {
    /// Its URL.
    pub url: Text,
    /// Its bytes.
    pub body: Vec<u8>,
    /// What was asked so far.
    pub asked: Asks,
}

impl OpenText {
    /// The text at this URL, for which nothing was asked. It doesn't allocate.
    pub fn new(alloc: Global, url: Text, body: Vec<u8>) -> OpenText
        ensures url { result.url ≡ url }
        ensures body { result.body ≡ body }
        ensures asked { result.asked ≡ [] }
    {
        OpenText {
            url,
            body,
            asked: Asks::new(alloc),
        }
    }
}

impl Source for OpenText {
    ghost use Rattle.std.specs.Prelude.{refl, Some, None, bytes_eq, if◌then◌else◌};
    ghost use Rattle.esm_ports.specs.Asks.{failed_count};

    ghost asked = { λ s. s.asked };

    ghost holds = { λ s. Some (λ url. if bytes_eq url s.url then Some s.body.items else None) };

    ghost faults = { λ s. failed_count s.asked };

    ghost counted = { λ s. refl };

    fn fetch(&mut self, alloc: Global, url: &str) -> Result<Vec<u8>, FetchEnd> {
        let copy = Text::copy(alloc, url)?;
        if !self.url.is(url) {
            self.asked.add(copy, AskKind::Absent)?;
            return Err(FetchEnd::Absent);
        }
        let count = MAX_BODY_BYTES.min(self.body.len());
        let body = Vec::from_slice(alloc, &self.body[..count])?;
        self.asked.add(copy, AskKind::Body)?;
        Ok(body)
    }

    fn faults(&self) -> u64 {
        self.asked.failed()
    }
}

/// A sink of so much room: what was written stands on the page, and where it is full a write fails.
#[derive(Drop)]
pub struct Page {
    text: Vec<u8>,
    room: usize,
    faults: u64,
}

impl Model for Page {
    ghost use Rattle.esm_examples.specs.Pages.{PageParts};
    ghost use Rattle.std.specs.Coded.{codes};

    ghost Value = { PageParts };

    ghost coded = { Prim.hlevel codes };

    ghost view = { λ p. record { text = p.text.items; room = p.room; faults = p.faults } };
}

impl Page {
    /// An empty page of so much room. It doesn't allocate.
    pub fn new(alloc: Global, room: usize) -> Page
        ensures { result ≡ record { text = []; room = room; faults = 0 } }
    {
        Page {
            text: Vec::new(alloc),
            room,
            faults: 0,
        }
    }

    /// What was written.
    pub fn text(&self) -> &[u8]
        ensures { result.now ≡ self.now.text }
    {
        self.text.as_slice()
    }
}

impl Sink for Page {
    ghost use Rattle.std.specs.Prelude.{Some};
    ghost use Rattle.esm_examples.specs.Pages.{WritesOnPage};

    ghost written = { λ p. Some p.text };

    ghost faults = { λ p. p.faults };

    ghost write_gives = { WritesOnPage };

    fn write(&mut self, piece: &[u8]) -> Result<usize, SinkEnd> {
        if self.text.len() >= self.room {
            self.faults += 1;
            return Err(SinkEnd::Failed);
        }
        let count = piece.len().min(self.room - self.text.len());
        self.text.extend_from_slice(&piece[..count])?;
        Ok(count)
    }

    fn faults(&self) -> u64 {
        self.faults
    }
}

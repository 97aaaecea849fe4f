// Texts in order, each once, and the place of each.
ghost use Rattle.std.specs.Prelude.{◌≡◌, ◌++◌, ◌∷◌, ◌<◌, ◌↔◌, [], suc, length, map, not, position, slice_get, IfOk, IfSome, OnOk, OnErr, IsSome, Some, bytes_eq, false, option_copied};
ghost use Rattle.std.specs.BTreeMap.{Updates, IsUnchanged, get};
ghost use Rattle.std.specs.Cmp.Lexicographic.{slice_cmp};
ghost use Rattle.std.specs.Ordering.{nat_cmp};
ghost use Rattle.esm_base.specs.Lists.{is_in};
ghost use Rattle.esm_text_table.specs.TextTable as spec;
ghost use Rattle.esm_text_table.specs.TextTable.{AreReached, AreSound, Keeps, Puts, is_mark, is_text, mark_of, reach, with_text};

use esm_base::{Memory, Text};
use std::alloc::Global;
use std::collections::BTreeMap;
use std::hash::{FoldHasher, Hasher};
use std::marker::Model;

/// How many slots from its first on a text can be in.
const REACH: usize = 8;

// The least mask but that of a table without slots.
const FEWEST: u64 = 15;

/// Where each text stands.
#[derive(Drop)]
struct Places {
    alloc: Global,
    /// The numbers of texts, each its place and one; 0 where a slot is free.
    slots: Vec<u32>,
    /// The bits of a mark that say which slot is its first.
    mask: u64,
    /// The mark of each text.
    marks: Vec<u64>,
    /// The places of the texts that found no free slot within reach.
    others: BTreeMap<Text, usize>,
}

/// Texts in the order in which they were put in, each once. Contracts see the list of them.
///
/// A text is found by a mark of it: its number stands in one of a few slots, and texts are compared where their marks are the
/// same. Who chooses texts whose marks have the same slots has them found by comparisons in a balanced tree of texts, so nobody
/// can make them slow to find.
#[derive(Drop)]
pub struct TextTable {
    places: Places,
    texts: Vec<Text>,
}

impl Model for TextTable {
    ghost use Rattle.std.specs.Prelude.{List, ℕ};
    ghost use Rattle.std.specs.BTreeMap.{get};
    ghost use Rattle.std.specs.Cmp.Lexicographic.{slice_cmp};
    ghost use Rattle.std.specs.Ordering.{nat_cmp};

    ghost Value = { List (List ℕ) };

    ghost use Rattle.esm_text_table.specs.TextTable.{AreListed};

    ghost view = { λ t. t.texts.items };

    ghost invariant = { λ t. AreListed t.places.slots.items t.places.mask t.places.marks.items
        (get (slice_cmp nat_cmp) t.places.others) t.texts.items };
}

// A number that equal texts have alike.
#[tactic(auto, unfolding(crate::specs::TextTable::mark_of))]
fn mark_of(text: &Text) -> u64
    ensures { result ≡ spec.mark_of text.now }
{
    let mut hasher = FoldHasher::default();
    hasher.write(text.as_str().as_bytes());
    hasher.finish()
}

// Whether this text stands at a place.
fn is_at(texts: &[Text], place: usize, text: &Text) -> bool
    ensures { result ≡ is_text text.now (slice_get texts.now place) }
{
    match texts.get(place) {
        Some(found) => found == text,
        None => false,
    }
}

// Whether a place has this mark.
fn is_marked(marks: &[u64], place: usize, mark: u64) -> bool
    ensures { result ≡ is_mark mark (slice_get marks.now place) }
{
    match marks.get(place) {
        Some(found) => *found == mark,
        None => false,
    }
}

// The mask of slots for so many texts: no more than a quarter of the slots is taken then.
fn mask_for(count: usize) -> u64 {
    let wanted = (count as u64).saturating_mul(4).saturating_sub(1) | FEWEST;
    u64::MAX
        .checked_shr(wanted.leading_zeros())
        .unwrap_or(FEWEST)
}

// Free slots, as many as such a mask has, and those within reach of the last.
fn slots_for(alloc: Global, mask: u64) -> Result<Vec<u32>, Memory> {
    let number = (mask as usize).saturating_add(REACH);
    Ok(vec![in alloc; 0; number]?)
}

// The first slot of a mark.
fn start_of(mask: u64, mark: u64) -> usize
    ensures { result ≡ spec.start_of mask mark }
{
    (mark & mask) as usize
}

// The number of the text at a place, where slots have room for it.
fn number_of(place: usize) -> Option<u32>
    ensures { IfSome result (λ number. number ≡ suc place) }
{
    if place < u32::MAX as usize {
        Some(place as u32 + 1)
    } else {
        None
    }
}

// What a slot holds, if there is such a slot.
fn slot_at(slots: &[u32], at: usize) -> Option<u32>
    ensures { result ≡ slice_get slots.now at }
{
    slots.get(at).copied()
}

// The first free slot of so many from one on.
fn room_of(slots: &[u32], left: usize, at: usize) -> Option<usize>
    ensures { result ≡ spec.room slots.now left at }
{
    if at >= slots.len() {
        return None;
    }
    if left == 0 {
        return None;
    }
    match slot_at(slots, at) {
        Some(number) => {
            if number == 0 {
                Some(at)
            } else {
                room_of(slots, left - 1, at + 1)
            }
        }
        None => None,
    }
}

impl Places {
    // No places.
    fn new(alloc: Global) -> Places
        ensures marks { result.marks.items ≡ [] }
        ensures others { result.others.entries ≡ [] }
    {
        Places {
            alloc,
            slots: Vec::new(alloc),
            mask: 0,
            marks: Vec::new(alloc),
            others: BTreeMap::new(alloc),
        }
    }

    // No places, with slots for so many.
    fn with_room(alloc: Global, count: usize) -> Result<Places, Memory>
        ensures marks { IfOk result (λ places. places.marks.items ≡ []) }
        ensures others { IfOk result (λ places. places.others.entries ≡ []) }
    {
        let mask = mask_for(count);
        let slots = slots_for(alloc, mask)?;
        let marks = Vec::with_capacity(alloc, count)?;
        Ok(Places {
            alloc,
            slots,
            mask,
            marks,
            others: BTreeMap::new(alloc),
        })
    }

    // Whether a place has this mark and this text.
    fn tells(&self, texts: &[Text], mark: u64, text: &Text, place: usize) -> bool
        ensures { result ≡ spec.tells self.now.marks.items texts.now mark text.now place }
    {
        if is_marked(self.marks.as_slice(), place, mark) {
            is_at(texts, place, text)
        } else {
            false
        }
    }

    // Where a text stands by so many slots from one on, up to the first that is free, and behind them by the others.
    fn look(&self, texts: &[Text], mark: u64, text: &Text, left: usize, at: usize) -> Option<usize>
        ensures { result ≡ spec.look self.now.slots.items (spec.tells self.now.marks.items texts.now mark text.now)
            (get (slice_cmp nat_cmp) self.now.others text.now) left at }
    {
        if left == 0 {
            return self.others.get(text).copied();
        }
        if at >= self.slots.len() {
            return self.others.get(text).copied();
        }
        match slot_at(self.slots.as_slice(), at) {
            Some(number) => {
                if number == 0 {
                    return None;
                }
                let place = (number - 1) as usize;
                if self.tells(texts, mark, text, place) {
                    Some(place)
                } else {
                    self.look(texts, mark, text, left - 1, at + 1)
                }
            }
            None => None,
        }
    }
}

// Adds a text to the others. Where memory runs out they are as before.
fn put_other(others: &mut BTreeMap<Text, usize>, text: &Text, place: usize) -> Result<(), Memory>
    ensures others { OnOk result (Updates (slice_cmp nat_cmp) others.old others.new text.now (Some place)) }
    ensures stay { OnErr result (IsUnchanged others.old others.new) }
{
    let key = text.clone()?;
    if others.insert(key, place).is_err() {
        return Err(Memory);
    }
    Ok(())
}

// Gives a text its place: in the first free slot within reach, and else among the others. Where memory runs out all is
// as before.
fn put(
    slots: &mut Vec<u32>,
    others: &mut BTreeMap<Text, usize>,
    start: usize,
    text: &Text,
    place: usize,
) -> Result<(), Memory>
    ensures put { OnOk result (Puts (spec.room slots.old.items reach start) slots.old.items
        (get (slice_cmp nat_cmp) others.old) text.now place slots.new.items (get (slice_cmp nat_cmp) others.new)) }
    ensures slots { OnErr result (slots.new.items ≡ slots.old.items) }
    ensures others { OnErr result (IsUnchanged others.old others.new) }
{
    let Some(number) = number_of(place) else {
        return Err(Memory);
    };
    match room_of(slots.as_slice(), REACH, start) {
        Some(at) => {
            slots[at] = number;
            Ok(())
        }
        None => put_other(others, text, place),
    }
}

// Gives each text its place in these slots or among the others.
fn put_all(
    slots: &mut Vec<u32>,
    others: &mut BTreeMap<Text, usize>,
    mask: u64,
    marks: &[u64],
    texts: &[Text],
) -> Result<(), Memory>
    requires marks { marks.now ≡ map mark_of texts.now }
    requires sound { AreSound (get (slice_cmp nat_cmp) others.now) texts.now }
    ensures sound { AreSound (get (slice_cmp nat_cmp) others.new) texts.now }
    ensures kept { Keeps (get (slice_cmp nat_cmp) others.old) (get (slice_cmp nat_cmp) others.new) }
    ensures reached { OnOk result (AreReached (length texts.now) slots.new.items mask marks.now
        (get (slice_cmp nat_cmp) others.new) texts.now) }
{
    for place in 0..texts.len() {
        let text = &texts[place];
        let mark = marks[place];
        let start = start_of(mask, mark);
        if put(slots, others, start, text, place).is_err() {
            return Err(Memory);
        }
    }
    Ok(())
}

impl TextTable {
    /// The table without texts. It doesn't allocate.
    pub fn new(alloc: Global) -> TextTable
        ensures { result ≡ [] }
    {
        TextTable {
            places: Places::new(alloc),
            texts: Vec::new(alloc),
        }
    }

    /// The table without texts, with room for so many. It answers `Memory` where memory runs out.
    pub fn with_capacity(alloc: Global, capacity: usize) -> Result<TextTable, Memory>
        ensures { IfOk result (λ table. table ≡ []) }
    {
        let places = Places::with_room(alloc, capacity)?;
        let texts = Vec::with_capacity(alloc, capacity)?;
        Ok(TextTable { places, texts })
    }

    /// How many texts there are.
    pub fn len(&self) -> usize
        ensures { result ≡ length self.now }
    {
        self.texts.len()
    }

    // The place of a text with this mark, if it is there.
    fn find_by(&self, mark: u64, text: &Text) -> Option<usize>
        requires { mark ≡ mark_of text.now }
        ensures { result ≡ position (bytes_eq text.now) self.now }
    {
        let start = start_of(self.places.mask, mark);
        self.places
            .look(self.texts.as_slice(), mark, text, REACH, start)
    }

    /// The place of a text, if it is there.
    pub fn find(&self, text: &Text) -> Option<usize>
        ensures { result ≡ position (bytes_eq text.now) self.now }
    {
        self.find_by(mark_of(text), text)
    }

    /// The text at a place, if there is one.
    pub fn get(&self, place: usize) -> Option<&Text>
        ensures text { option_copied result ≡ slice_get self.now place }
        ensures within { IsSome result ↔ (place < length self.now) }
    {
        self.texts.get(place)
    }

    // Slots for one text more. The list stays as it is.
    fn make_room(&mut self) -> Result<(), Memory>
        ensures { self.new ≡ self.old }
    {
        let count = self.texts.len();
        if (count as u64).saturating_mul(4) < self.places.mask {
            return Ok(());
        }
        let mask = mask_for(count.saturating_mul(2));
        let mut slots = slots_for(self.places.alloc, mask)?;
        let done = put_all(
            &mut slots,
            &mut self.places.others,
            mask,
            self.places.marks.as_slice(),
            self.texts.as_slice(),
        );
        if done.is_err() {
            return Err(Memory);
        }
        self.places.slots = slots;
        self.places.mask = mask;
        Ok(())
    }

    // Puts a text that isn't there behind all others, in the slots that there are. Where memory runs out the table is as
    // before.
    fn append(&mut self, mark: u64, text: Text) -> Result<(), Memory>
        requires mark { mark ≡ mark_of text }
        requires new { is_in bytes_eq self.old text ≡ false }
        ensures texts { OnOk result (self.new ≡ self.old ++ text ∷ []) }
        ensures refused { OnErr result (self.new ≡ self.old) }
    {
        let place = self.texts.len();
        if self.places.marks.reserve(1).is_err() {
            return Err(Memory);
        }
        if self.texts.reserve(1).is_err() {
            return Err(Memory);
        }
        let start = start_of(self.places.mask, mark);
        let done = put(
            &mut self.places.slots,
            &mut self.places.others,
            start,
            &text,
            place,
        );
        if done.is_err() {
            return Err(Memory);
        }
        self.places.marks.push_reserved(mark);
        self.texts.push_reserved(text);
        Ok(())
    }

    // Puts a text with this mark that isn't there behind all others. Where memory runs out the table is as before.
    fn add(&mut self, mark: u64, text: Text) -> Result<(), Memory>
        requires mark { mark ≡ mark_of text }
        requires new { is_in bytes_eq self.old text ≡ false }
        ensures texts { OnOk result (self.new ≡ self.old ++ text ∷ []) }
        ensures refused { OnErr result (self.new ≡ self.old) }
    {
        if self.make_room().is_err() {
            return Err(Memory);
        }
        self.append(mark, text)
    }

    /// Puts a text behind all others, and answers `true`; where the table has the text already, it answers `false`.
    /// After that and where memory runs out the table is as before.
    pub fn insert(&mut self, text: Text) -> Result<bool, Memory>
        ensures texts { OnOk result (self.new ≡ with_text self.old text) }
        ensures added { IfOk result (λ added. added ≡ not (is_in bytes_eq self.old text)) }
        ensures refused { OnErr result (self.new ≡ self.old) }
    {
        let mark = mark_of(&text);
        if self.find_by(mark, &text).is_some() {
            return Ok(false);
        }
        match self.add(mark, text) {
            Ok(()) => Ok(true),
            Err(Memory) => Err(Memory),
        }
    }

    /// Puts a text that isn't there behind all others: who has just looked for it needn't have it looked for again. Where
    /// memory runs out the table is as before.
    pub fn insert_new(&mut self, text: Text) -> Result<(), Memory>
        requires { is_in bytes_eq self.old text ≡ false }
        ensures texts { OnOk result (self.new ≡ self.old ++ text ∷ []) }
        ensures refused { OnErr result (self.new ≡ self.old) }
    {
        self.add(mark_of(&text), text)
    }

    /// Lets all texts go.
    pub fn clear(&mut self)
        ensures { self.new ≡ [] }
    {
        self.places.slots.clear();
        self.places.mask = 0;
        self.places.marks.clear();
        self.places.others.clear();
        self.texts.clear();
    }

    /// The texts in their order. The list keeps its memory.
    pub fn into_texts(self) -> Vec<Text>
        ensures { result.items ≡ self }
    {
        let TextTable { texts, .. } = self;
        texts
    }
}

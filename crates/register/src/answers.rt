// What lookups, offers and ranges answer. Rows of a record that are not used are 0. That `used` is at most the number of rows
// is no ghost field: a type with a parameter and a ghost field derives no Clone.
ghost use Rattle.std.specs.Prelude.{◌≡◌, take};

use crate::limits::{MOST_SPANS, MOST_STOPS};

// A list on the way of a lookup, and the place of the sought key in it.
#[derive(Clone, Copy, PartialEq, Eq, Default, Debug)]
pub struct Stop {
    pub list: usize,
    pub place: usize,
}

// Entries of a list: from the place `first` on, before the place `after`.
#[derive(Clone, Copy, PartialEq, Eq, Default, Debug)]
pub struct Span {
    pub list: usize,
    pub first: usize,
    pub after: usize,
}

// A lookup: the stops from the root to the end list, how many there are, and how many keys were compared.
#[derive(Clone, Copy, PartialEq, Eq, Debug)]
pub struct Lookup {
    pub stops: [Stop; MOST_STOPS],
    pub used: usize,
    pub comparisons: usize,
}

impl Lookup {
    // The stops in use.
    pub fn path(&self) -> &[Stop]
        ensures { result.now ≡ take self.now.used self.now.stops }
    {
        &self.stops[..self.used.min(MOST_STOPS)]
    }
}

// An offer: all entries along a path whose key is the same as the sought one. For each list from the root to the end
// list the entries' span, then over all spans the number of entries and their joined payload.
#[derive(Clone, Copy, PartialEq, Eq, Debug)]
pub struct Offer<P> {
    pub spans: [Span; MOST_STOPS],
    pub used: usize,
    pub entries: usize,
    pub payload: P,
    pub comparisons: usize,
}

impl<P> Offer<P> {
    // The spans in use.
    pub fn used_spans(&self) -> &[Span]
        ensures { result.now ≡ take self.now.used self.now.spans }
    {
        &self.spans[..self.used.min(MOST_STOPS)]
    }
}

// A range over slots and keys: the span of each chosen list, then over all spans the number of entries and their joined
// payload. It is no offer of more rows: a row of an offer belongs to the stop of the same number on its path.
#[derive(Clone, Copy, PartialEq, Eq, Debug)]
pub struct Range<P> {
    pub spans: [Span; MOST_SPANS],
    pub used: usize,
    pub entries: usize,
    pub payload: P,
    pub comparisons: usize,
}

impl<P> Range<P> {
    // The spans in use.
    pub fn used_spans(&self) -> &[Span]
        ensures { result.now ≡ take self.now.used self.now.spans }
    {
        &self.spans[..self.used.min(MOST_SPANS)]
    }
}

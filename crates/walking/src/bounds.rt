// What a range is asked between: slots and keys.
ghost use Rattle.std.specs.Prelude.{◌≡◌, ◌<◌, ◌≤◌, true, ◌&&◌, IfSome, is_some, nat_le, nat_lt};
ghost use Rattle.std.specs.Ordering.{is_le};
ghost use Rattle.shelves.specs.Slots.{sieve_lists, slot_count};
ghost use Rattle.cascade.specs.SlotTree as tree;

use orders::KeyOrder;
use shelves::slots::{SLOT_COUNT, Slots, parent_of};

// The slots from `first` to `last`.
#[derive(Clone, Copy, PartialEq, Eq, Debug)]
pub struct SlotRange {
    pub first: usize,
    pub last: usize,
    pub ghost forward: { first ≤ last },
    pub ghost few: { last < slot_count },
}

// The keys from `low` to `high`.
#[derive(Drop)]
pub struct KeyRange<'k, K: KeyOrder> {
    pub low: &'k K,
    pub high: &'k K,
    pub ghost upward: { is_le (K.order low.now high.now) ≡ true },
}

impl SlotRange {
    // Nothing where the slots are out of order or there is no such last slot.
    pub fn new(first: usize, last: usize) -> Option<Self>
        ensures found { is_some result ≡ (nat_le first last && nat_lt last slot_count) }
        ensures is { IfSome result (λ slots. (slots.first ≡ first) × (slots.last ≡ last)) }
    {
        if first > last || last >= SLOT_COUNT {
            return None;
        }
        Some(SlotRange { first, last })
    }

    // Whether some slot of a list is one of these.
    fn meets(self, list: usize) -> bool
        requires { list < sieve_lists }
        ensures { result ≡ tree.meets self.first self.last list }
    {
        Slots::of(list).is_some_and(|slots| slots.first <= self.last && self.first < slots.end)
    }

    // Whether each slot of a list is one of these.
    fn covers(self, list: usize) -> bool
        requires { list < sieve_lists }
        ensures { result ≡ tree.inside self.first self.last list }
    {
        Slots::of(list).is_some_and(|slots| self.first <= slots.first && slots.end <= self.last + 1)
    }

    // Whether a range visits a list. No list above it is chosen, since none is inside: its parent, which covers the least, is
    // not.
    pub(crate) fn visits(self, list: usize) -> bool
        requires { list < sieve_lists }
        ensures { result ≡ tree.visited self.first self.last list }
    {
        if list > 0 && self.covers(parent_of(list)) {
            return false;
        }
        self.meets(list)
    }

    // Whether a range chooses a list.
    pub(crate) fn chooses(self, list: usize) -> bool
        requires { list < sieve_lists }
        ensures { result ≡ tree.chosen self.first self.last list }
    {
        self.visits(list) && self.covers(list)
    }
}

impl<'k, K: KeyOrder> KeyRange<'k, K> {
    // Nothing where `low` is above `high`.
    pub fn new(low: &'k K, high: &'k K) -> Option<Self>
        ensures found { is_some result ≡ is_le (K.order low.now high.now) }
        ensures is { IfSome result (λ keys. (keys.low.now ≡ low.now) × (keys.high.now ≡ high.now)) }
    {
        if low.compare(high).is_gt() {
            return None;
        }
        Some(KeyRange { low, high })
    }
}

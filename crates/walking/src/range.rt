// Ranges over the sieve's lists.
ghost use Rattle.std.specs.Prelude.{◌≡◌, ◌≤◌, length};
ghost use Rattle.cascade.specs.SlotTree.{SieveShaped, chosen_lists, range_comparisons};
ghost use Rattle.cascade.specs.Trees.{all_keys};
ghost use Rattle.register.specs.Answers.{filled_up};
ghost use Rattle.walking.specs.Reached.{no_span};
ghost use Rattle.walking.specs.Ranged.{ranged_at};
ghost use Rattle.walking.specs.Surveyed.{PlacesOf, PlacesWithin, spans_at};

use crate::bounds::{KeyRange, SlotRange};
use crate::walk::Cascade;
use orders::side::Side;
use orders::{KeyOrder, Payload};
use register::answers::{Range, Span};
use register::limits::MOST_SPANS;
use shelves::slots::{SIEVE_LISTS, parent_of};

impl<'a, K: KeyOrder, P: Payload> Cascade<'a, K, P> {
    // The augmented places of both sides in each visited list, and the comparisons to find them.
    fn survey(
        &self,
        slots: SlotRange,
        keys: &KeyRange<'_, K>,
    ) -> ([(usize, usize); SIEVE_LISTS], usize)
        requires { SieveShaped self.now.tree.now }
        ensures are { PlacesOf K.order self.now.tree.now slots.first slots.last keys.now.low.now keys.now.high.now result.0 }
        ensures counted { result.1 ≡ range_comparisons K.order self.now.tree.now slots.first slots.last keys.now.low.now keys.now.high.now }
    {
        let mut places = [(0usize, 0usize); SIEVE_LISTS];
        let mut comparisons = 0;
        // By number, since the places of a list come from another row of the table, its parent's.
        for list in 0..SIEVE_LISTS {
            if slots.visits(list) {
                let above = places[parent_of(list)];
                let first = self.arrive(list, above.0, keys.low, Side::Low);
                let after = self.arrive(list, above.1, keys.high, Side::High);
                places[list] = (first.place, after.place);
                comparisons += first.comparisons + after.comparisons;
            }
        }
        (places, comparisons)
    }

    // The spans of the chosen lists, and how many there are.
    fn chosen_spans(
        &self,
        slots: SlotRange,
        places: &[(usize, usize); SIEVE_LISTS],
    ) -> ([Span; MOST_SPANS], usize)
        requires sieve { SieveShaped self.now.tree.now }
        requires within { PlacesWithin K.order self.now.tree.now slots.first slots.last places.now }
        ensures spans { result.0 ≡ filled_up 10 no_span (spans_at K.order self.now.tree.now slots.first slots.last places.now) }
        ensures used { result.1 ≡ length (chosen_lists slots.first slots.last) }
    {
        let mut spans = [Span::default(); MOST_SPANS];
        let mut used = 0;
        for (list, &(first, after)) in places.iter().enumerate() {
            if slots.chooses(list) {
                spans[used] = Span {
                    list,
                    first: self.own_place(list, first),
                    after: self.own_place(list, after),
                };
                used += 1;
            }
        }
        (spans, used)
    }

    // A range over slots and keys.
    pub fn range(&self, slots: SlotRange, keys: &KeyRange<'_, K>) -> Range<P>
        requires sieve { SieveShaped self.now.tree.now }
        requires held { all_keys self.now.tree.now ≤ length self.now.payloads.now }
        ensures { result ≡ ranged_at K.order P.neutral P.joined self.now.tree.now self.now.payloads.now slots.first slots.last keys.now.low.now keys.now.high.now }
    {
        let (places, comparisons) = self.survey(slots, keys);
        let (spans, used) = self.chosen_spans(slots, &places);
        let (entries, payload) = self.join_spans(&spans[..used]);
        Range {
            spans,
            used,
            entries,
            payload,
            comparisons,
        }
    }
}

// The calls on an index.
ghost use Rattle.std.specs.Prelude.{◌≡◌, true, take, IfOk};
ghost use Rattle.register.specs.Questions.{unless, build_fault, place_fault};
ghost use Rattle.cascade.specs.Trees.{augmented_lists};
ghost use Rattle.layout.specs.KeyTrees.{key_tree, all_in_order};
ghost use Rattle.register.specs.Answers.{map_ok, lookup_read, offer_read, range_read};
ghost use Rattle.register.specs.Register.{look_up_answer, offer_answer, range_answer};
ghost use Rattle.index.specs.Counts.{LookupCounts, OfferCounts, RangeCounts};
ghost use Rattle.index.specs.Held.{machine_of};
ghost use Rattle.index.specs.Rectangles.{HoldRectangle};
ghost use Rattle.index.specs.Machine.{Sound, sizes_of, blank, cleared, after_amend, after_build};
ghost use Rattle.walking.specs.InMemory.{InMemory};

use crate::sieve::is_sieve;
use crate::{Index, Memory};
use cascade::row::Row;
use faults::{Fault, Reason};
use layout::{empty, of_shelf};
use orders::side::Side;
use orders::{KeyOrder, Payload};
use plan::plan;
use plan::table::ListTable;
use register::answers::{Lookup, Offer, Range};
use shelves::Shelf;
use walking::bounds::{KeyRange, SlotRange};
use walking::walk::Cascade;

impl<'m, K: KeyOrder, P: Payload> Index<'m, K, P> {
    // An index of no lists over lent memory, which stays as it is.
    pub fn set_up(keys: &'m mut [K], rows: &'m mut [Row], payloads: &'m mut [P]) -> Self
        ensures { machine_of result ≡ blank keys.old rows.old payloads.old }
    {
        Index {
            memory: Memory {
                keys,
                rows,
                payloads,
            },
            table: ListTable::empty(),
            layout: empty(),
        }
    }

    // Takes the lists of a shelf in the place of those it held, or refuses. Every question is asked before anything is
    // written.
    pub fn build<S: Shelf<Key = K, Payload = P>>(&mut self, shelf: &S) -> Result<(), Fault>
        ensures answer { result ≡ unless (build_fault K.order (key_tree (S.meaning shelf.now)) (sizes_of (machine_of self.old))) tt }
        ensures after { machine_of self.new ≡ after_build K.order (machine_of self.old) (S.meaning shelf.now) }
    {
        let table = plan(shelf)?;
        let keys = self.memory.keys.len();
        let rows = self.memory.rows.len();
        let payloads = self.memory.payloads.len();
        table.ask_memory(keys, rows, payloads)?;
        self.memory.lay_down(shelf, &table);
        self.table = table;
        self.layout = of_shelf(shelf);
        Ok(())
    }

    // Back to no lists. The memory stays as it is.
    pub fn clear(&mut self)
        ensures { machine_of self.new ≡ cleared (machine_of self.old) }
    {
        self.table = ListTable::empty();
        self.layout = empty();
    }

    // Joins a payload to the entry at a place of a list, or refuses: no such list, then no such place.
    pub fn amend(&mut self, list: usize, place: usize, by: P) -> Result<(), Fault>
        ensures answer { result ≡ unless (place_fault (key_tree (machine_of self.old).register) list place) tt }
        ensures after { machine_of self.new ≡ after_amend P.joined (machine_of self.old) list place by }
    {
        if list >= self.table.len {
            return Err(Fault::new(Reason::NoSuchList, list, 0));
        }
        let run = self.table.runs[list];
        if place >= run.count {
            return Err(Fault::new(Reason::NoSuchPlace, list, place));
        }
        self.memory.amend(run.first + place, by);
        Ok(())
    }

    // What its walks read: lists in order that lie in memory, and a place in payload memory for each entry.
    fn cascade(&self) -> Cascade<'_, K, P>
        ensures tree { result.tree.now ≡ self.now.layout.tree }
        ensures payloads { result.payloads.now ≡ self.now.memory.payloads.now }
        ensures in_memory { InMemory result.tree.now (augmented_lists K.order result.tree.now) result.table.now result.keys.now result.rows.now result.payloads.now }
        ensures in_order { all_in_order K.order result.tree.now ≡ true }
    {
        Cascade {
            table: &self.table,
            keys: &self.memory.keys[..],
            rows: &self.memory.rows[..],
            payloads: &self.memory.payloads[..],
            tree: &self.layout.tree,
        }
    }

    // Where a key stands in each list from the root to an end list, or the refusal: no such list.
    pub fn look_up(&self, list: usize, key: &K, side: Side) -> Result<Lookup, Fault>
        ensures answer { map_ok lookup_read result ≡ look_up_answer K.order (machine_of self.now).register list side key.now }
        ensures counts { IfOk result (λ l. LookupCounts K.order (key_tree (machine_of self.now).register) list side key.now l.comparisons) }
    {
        if list >= self.table.len {
            return Err(Fault::new(Reason::NoSuchList, list, 0));
        }
        Ok(self.cascade().look_up(list, key, side))
    }

    // All entries from the root to an end list whose key is the same as the given one, or the refusal: no such list.
    pub fn offer(&self, list: usize, key: &K) -> Result<Offer<P>, Fault>
        ensures answer { map_ok offer_read result ≡ offer_answer K.order P.neutral P.joined (machine_of self.now).register list key.now }
        ensures counts { IfOk result (λ o. OfferCounts K.order (key_tree (machine_of self.now).register) list key.now o.comparisons) }
    {
        if list >= self.table.len {
            return Err(Fault::new(Reason::NoSuchList, list, 0));
        }
        Ok(self.cascade().offer(list, key))
    }

    // A range over the slots a to b and the keys low to high, or the refusal: not the sieve's lists, then slots out of
    // order or above 63, then low above high. That last comparison is not one of the search, and is not counted.
    pub fn range(&self, a: usize, b: usize, low: &K, high: &K) -> Result<Range<P>, Fault>
        ensures answer { map_ok range_read result ≡ range_answer K.order P.neutral P.joined (machine_of self.now).register a b low.now high.now }
        ensures counts { IfOk result (λ x. RangeCounts K.order (key_tree (machine_of self.now).register) a b low.now high.now x.comparisons) }
        ensures points { IfOk result (λ x. HoldRectangle K.order (machine_of self.now).register a b low.now high.now (take x.used x.spans)) }
    {
        if !is_sieve(&self.table) {
            return Err(Fault::new(Reason::NotSieved, 0, 0));
        }
        let Some(slots) = SlotRange::new(a, b) else {
            return Err(Fault::new(Reason::SlotLimits, a, b));
        };
        let Some(keys) = KeyRange::new(low, high) else {
            return Err(Fault::new(Reason::KeyLimits, 0, 0));
        };
        Ok(self.cascade().range(slots, &keys))
    }

    // What holds of every index.
    pub fn sound(&self)
        ensures { Sound K.order (machine_of self.now) }
    {}
}

// The sieved shelf: a point table, whose points the 127 lists of the sieve share out by their slots.
ghost use Rattle.std.specs.Prelude.{◌≡◌, length, IfOk};
ghost use Rattle.faults.specs.Refusals.{fault};
ghost use Rattle.faults.specs.declared.Reason.TheVariants.{SlotAboveLimit};
ghost use Rattle.std.specs.List.{slice_get};
ghost use Rattle.std.specs.Option.{option_map};
ghost use Rattle.std.specs.Result.{result_err};
ghost use Rattle.shelves.specs.Kinds.{sieved_of};
ghost use Rattle.shelves.specs.Sieving.{sifted_in, first_above};
ghost use Rattle.shelves.specs.Tables.{sieved};

use crate::Shelf;
use crate::rows::Point;
use crate::slots::{SIEVE_LISTS, SLOT_COUNT, Slots, parent_of};
use faults::{Fault, Reason};
use orders::entry::Entry;
use orders::{KeyOrder, Payload};

// The entries of a list are the points in the slots that it covers, in point order.
#[derive(Clone, Copy)]
pub struct Sieved<'a, K, P> {
    points: &'a [Point<K, P>],
}

impl<'a, K, P> Sieved<'a, K, P> {
    // Refused at the first point whose slot is above 63.
    pub fn new(points: &'a [Point<K, P>]) -> Result<Sieved<'a, K, P>, Fault>
        ensures refused { result_err result ≡ option_map (λ i. fault SlotAboveLimit i 0) (first_above 0 points.now) }
        ensures granted { IfOk result (λ s. sieved_of s ≡ sieved points.now) }
    {
        for (i, p) in points.iter().enumerate() {
            if usize::from(p.slot) >= SLOT_COUNT {
                return Err(Fault::new(Reason::SlotAboveLimit, i, 0));
            }
        }
        Ok(Sieved { points })
    }

    // How many points lie in the slots.
    fn count_in(&self, slots: Slots) -> usize
        ensures { result ≡ length (sifted_in slots self.now.points.now) }
    {
        let mut n = 0;
        // Points are gone over with their index, which says how far they are sifted.
        for (_, p) in self.points.iter().enumerate() {
            if slots.hold(p.slot) {
                n += 1;
            }
        }
        n
    }
}

impl<'a, K: Copy, P: Copy> Sieved<'a, K, P> {
    // The entry at a place among the points that lie in the slots.
    fn entry_in(&self, slots: Slots, place: usize) -> Option<Entry<K, P>>
        ensures { result ≡ slice_get (sifted_in slots self.now.points.now) place }
    {
        let mut before = place;
        for (_, p) in self.points.iter().enumerate() {
            if slots.hold(p.slot) {
                if before == 0 {
                    return Some(Entry {
                        key: p.key,
                        payload: p.payload,
                    });
                }
                before -= 1;
            }
        }
        None
    }
}

impl<'a, K: KeyOrder, P: Payload> Shelf for Sieved<'a, K, P> {
    type Key = K;

    type Payload = P;

    ghost meaning = { sieved_of };

    fn lists(&self) -> usize {
        SIEVE_LISTS
    }

    fn parent(&self, list: usize) -> Option<usize> {
        (list < SIEVE_LISTS).then_some(parent_of(list))
    }

    fn count(&self, list: usize) -> usize {
        // Not `map_or`: the check infers no `ensures` for a closure that calls this generic method.
        match Slots::of(list) {
            Some(slots) => self.count_in(slots),
            None => 0,
        }
    }

    fn entry(&self, list: usize, place: usize) -> Option<Entry<K, P>> {
        self.entry_in(Slots::of(list)?, place)
    }
}

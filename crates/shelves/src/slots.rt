// The sieve's tree: its lists, their depths and the slots that they cover.
ghost use Rattle.std.specs.Prelude.{◌≡◌, ◌+◌, ◌^◌, ◌<◌, ◌≤◌, MatchOption};
ghost use Rattle.shelves.specs.Sieving.{in_slots};
ghost use Rattle.shelves.specs.Slots.{sieve_lists, sieve_parent, sieve_depth, first_slot, width_of};

// How many slots there are, and how many lists: a list for each slot, and one fewer above them.
pub const SLOT_COUNT: usize = 64;

pub const SIEVE_LISTS: usize = 2 * SLOT_COUNT - 1;

// The slots from `first` to before `end`.
#[derive(Clone, Copy, PartialEq, Eq, Debug)]
pub struct Slots {
    pub first: usize,
    pub end: usize,
}

// The parent of a list; the root gets its own number.
pub fn parent_of(list: usize) -> usize
    ensures { result ≡ sieve_parent list }
{
    list.saturating_sub(1) / 2
}

// The depth of a list; nothing where the sieve has no such list.
pub fn depth_of(list: usize) -> Option<u32>
    ensures { MatchOption result (sieve_lists ≤ list) (λ d. (list < sieve_lists) × (d ≡ sieve_depth list) × (2 ^ d ≤ list + 1) × (list + 1 < 2 ^ (d + 1))) }
{
    (list < SIEVE_LISTS).then(|| (list + 1).ilog2())
}

impl Slots {
    // The slots that a list covers; nothing where the sieve has no such list.
    pub fn of(list: usize) -> Option<Slots>
        ensures { MatchOption result (sieve_lists ≤ list) (λ s. (list < sieve_lists) × (s.first ≡ first_slot list) × (s.end ≡ first_slot list + width_of list)) }
    {
        let depth = depth_of(list)?;
        let width = SLOT_COUNT >> depth;
        let first = (list + 1 - (1 << depth)) * width;
        Some(Slots {
            first,
            end: first + width,
        })
    }

    // Whether a slot is one of these.
    pub fn hold(&self, slot: u8) -> bool
        ensures { result ≡ in_slots self.now slot }
    {
        (self.first..self.end).contains(&usize::from(slot))
    }
}

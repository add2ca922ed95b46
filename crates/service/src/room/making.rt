// Making room, and laying an index down in it.
ghost use Rattle.std.specs.Prelude.{◌≡◌, IfOk};
ghost use Rattle.shelves.specs.Kinds.{stored_of};
ghost use Rattle.service.specs.Building.{Builds};
ghost use Rattle.service.specs.Rooms.{sizes_of, sizes_for};

use crate::fillers::some_term;
use crate::room::Room;
use cascade::row::Row;
use faults::Fault;
use index::Index;
use register::limits::{MOST_ENTRIES, MOST_LISTS};
use shelves::stored::Stored;
use std::alloc::{AllocError, Global};
use terms::key::Term;
use terms::marks::Marks;

impl Room {
    // Room for every tree of so many lists and entries that an index takes. With the bridges there are at most 4/3 as
    // many keys as entries, and in each list one row more than keys.
    pub fn new(heap: Global, lists: usize, entries: usize) -> Result<Room, AllocError>
        ensures { IfOk result (λ room. sizes_of room ≡ sizes_for lists entries) }
    {
        let payloads = entries.min(MOST_ENTRIES);
        let keys = payloads + payloads / 3;
        let rows = keys + lists.min(MOST_LISTS);
        Ok(Room {
            keys: vec![in heap; some_term(); keys]?,
            rows: vec![in heap; Row::default(); rows]?,
            payloads: vec![in heap; Marks::default(); payloads]?,
        })
    }

    // The index of a shelf, laid down here, or the refusal of its build.
    pub fn index<'m>(
        &'m mut self,
        shelf: &Stored<'_, Term, Marks>,
    ) -> Result<Index<'m, Term, Marks>, Fault>
        ensures { Builds (stored_of shelf.now) (sizes_of self.old) result }
    {
        let mut index = Index::set_up(
            self.keys.as_mut_slice(),
            self.rows.as_mut_slice(),
            self.payloads.as_mut_slice(),
        );
        index.build(shelf)?;
        Ok(index)
    }
}

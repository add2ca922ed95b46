// The stored shelf: a list table and an entry table.
ghost use Rattle.std.specs.Prelude.{◌≡◌, min, sum_by};
ghost use Rattle.std.specs.List.{slice_get};
ghost use Rattle.shelves.specs.Kinds.{stored_of};
ghost use Rattle.shelves.specs.Meaning.{entries_of};
ghost use Rattle.shelves.specs.Tables.{stored};

use crate::Shelf;
use crate::rows::ListRow;
use orders::entry::Entry;
use orders::{KeyOrder, Payload};

// Each list takes the entries after those of the list before it, as many as it claims and the table still has.
#[derive(Clone, Copy)]
pub struct Stored<'a, K, P> {
    lists: &'a [ListRow],
    entries: &'a [Entry<K, P>],
}

impl<'a, K, P> Stored<'a, K, P> {
    pub fn new(lists: &'a [ListRow], entries: &'a [Entry<K, P>]) -> Stored<'a, K, P>
        ensures { stored_of result ≡ stored lists.now entries.now }
    {
        Stored { lists, entries }
    }

    // The entries of a list, none where there is no such list.
    fn run(&self, list: usize) -> &'a [Entry<K, P>]
        ensures { result.now ≡ entries_of (slice_get (stored_of self.now) list) }
    {
        let Some(row) = self.lists.get(list) else {
            return &[];
        };
        let from = claimed(&self.lists[..list], self.entries.len());
        let left = &self.entries[from..];
        &left[..row.count.min(left.len())]
    }
}

// How many entries the rows claim together, at most `limit`.
fn claimed(rows: &[ListRow], limit: usize) -> usize
    ensures { result ≡ min (sum_by (λ row. row.count) rows.now) limit }
{
    limit
        - rows
            .iter()
            .fold(limit, |left: usize, row| left.saturating_sub(row.count))
}

impl<'a, K: KeyOrder, P: Payload> Shelf for Stored<'a, K, P> {
    type Key = K;

    type Payload = P;

    ghost meaning = { stored_of };

    fn lists(&self) -> usize {
        self.lists.len()
    }

    fn parent(&self, list: usize) -> Option<usize> {
        self.lists.get(list).map(|row| row.parent)
    }

    fn count(&self, list: usize) -> usize {
        self.run(list).len()
    }

    fn entry(&self, list: usize, place: usize) -> Option<Entry<K, P>> {
        self.run(list).get(place).copied()
    }
}

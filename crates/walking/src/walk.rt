// Lookups along a path.
ghost use Rattle.std.specs.Prelude.{◌≡◌, ◌<◌, ◌≤◌, length, drop, ⊤};
ghost use Rattle.cascade.specs.Trees.{keys_of, own_source, parent_of, path, augmented_lists, augmented};
ghost use Rattle.cascade.specs.Rows.{row_at, tally};
ghost use Rattle.cascade.specs.Walks.{arrival};
ghost use Rattle.walking.specs.InMemory.{ListsInMemory, lists_in_memory_once};
ghost use Rattle.walking.specs.Walked.{looked_up};
ghost use Rattle.walking.specs.Reached.{arrived, end_of, IsPath};

use crate::search::{Arrival, edge_step, root_search};
use cascade::row::Row;
use layout::tree::Tree;
use orders::KeyOrder;
use orders::side::Side;
use plan::table::ListTable;
use register::answers::{Lookup, Stop};
use register::limits::MOST_STOPS;
use std::alloc::AllocError;

// What a walk reads: the list table, key, row and payload memory, and the tree whose lists lie there, in order or not. The
// tree takes no part at run time: only clauses read it.
pub struct Cascade<'a, K: KeyOrder, P> {
    pub table: &'a ListTable,
    pub keys: &'a [K],
    pub rows: &'a [Row],
    pub payloads: &'a [P],
    pub tree: &'a Tree<K>,
    pub ghost laid: { ListsInMemory tree.now (augmented_lists K.order tree.now) table.now keys.now rows.now } by { lists_in_memory_once tree.now (augmented_lists K.order tree.now) table.now keys.now rows.now K.code },
}

impl<'a, K: KeyOrder, P> Clone for Cascade<'a, K, P> {
    ghost is_clone = { λ x y. y ≡ x };

    ghost is_infallible = { λ _. ⊤ };

    fn clone(&self) -> Result<Self, AllocError> {
        Ok(*self)
    }
}

impl<'a, K: KeyOrder, P> Copy for Cascade<'a, K, P> {}

// The lists from the root to a list, at the end of an array.
#[derive(Clone, Copy)]
pub(crate) struct Path {
    lists: [usize; MOST_STOPS],
    from: usize,
    ghost inside: { from ≤ 9 },
}

impl Path {
    pub(crate) fn lists(&self) -> &[usize]
        ensures { result.now ≡ drop self.now.from self.now.lists }
    {
        &self.lists[self.from..]
    }
}

impl<'a, K: KeyOrder, P> Cascade<'a, K, P> {
    // The keys of a list's augmented list.
    fn keys_of(&self, list: usize) -> &[K]
        requires { list < length self.now.tree.now }
        ensures { result.now ≡ keys_of (augmented K.order self.now.tree.now list) }
    {
        let run = self.table.runs[list];
        &self.keys[run.start..run.start + run.length]
    }

    // The row of a list's augmented place.
    fn row(&self, list: usize, place: usize) -> Row
        requires there { list < length self.now.tree.now }
        requires within { place ≤ length (augmented K.order self.now.tree.now list) }
        ensures { result ≡ row_at place (augmented K.order self.now.tree.now list) }
    {
        self.rows[self.table.runs[list].start + list + place]
    }

    // The place in a list at its augmented place: how many of the keys in front are its own.
    pub(crate) fn own_place(&self, list: usize, place: usize) -> usize
        requires there { list < length self.now.tree.now }
        requires within { place ≤ length (augmented K.order self.now.tree.now list) }
        ensures { result ≡ tally own_source place (augmented K.order self.now.tree.now list) }
    {
        self.row(list, place).own as usize
    }

    // The augmented place of a key in a list: in the root by a search, in any other by a step from its place in the parent.
    pub(crate) fn arrive(&self, list: usize, above: usize, key: &K, side: Side) -> Arrival
        requires there { list < length self.now.tree.now }
        requires from_parent { 0 < list → above ≡ (arrival K.order self.now.tree.now side key.now (parent_of self.now.tree.now list)).0 }
        ensures { result ≡ arrived (arrival K.order self.now.tree.now side key.now list) }
    {
        let keys = self.keys_of(list);
        if list == 0 {
            return root_search(keys, key, side);
        }
        let run = self.table.runs[list];
        let row = self.row(run.parent, above);
        edge_step(keys, row.children[run.ordinal], key, side)
    }

    // The lists from the root to a list, found from its end.
    pub(crate) fn path_to(&self, end: usize) -> Path
        requires { end < length self.now.tree.now }
        ensures { drop result.from result.lists ≡ path self.now.tree.now end }
    {
        let mut lists = [0; MOST_STOPS];
        let mut from = MOST_STOPS - 1;
        let mut list = end;
        lists[from] = list;
        // By parents, in whose order the lists stand nowhere yet.
        while list > 0 {
            list = self.table.runs[list].parent;
            from -= 1;
            lists[from] = list;
        }
        Path { lists, from }
    }

    // A lookup along the lists of a path.
    pub(crate) fn walk(&self, lists: &[usize], key: &K, side: Side) -> Lookup
        requires { IsPath self.now.tree.now lists.now }
        ensures { result ≡ looked_up K.order self.now.tree.now (end_of lists.now) side key.now }
    {
        let mut stops = [Stop::default(); MOST_STOPS];
        let mut at = 0;
        let mut comparisons = 0;
        for (i, &list) in lists.iter().enumerate() {
            let next = self.arrive(list, at, key, side);
            at = next.place;
            comparisons += next.comparisons;
            stops[i] = Stop {
                list,
                place: self.own_place(list, at),
            };
        }
        Lookup {
            stops,
            used: lists.len(),
            comparisons,
        }
    }

    // A lookup: from the root to list `end`, each list with the place of the key in it.
    pub fn look_up(&self, end: usize, key: &K, side: Side) -> Lookup
        requires { end < length self.now.tree.now }
        ensures { result ≡ looked_up K.order self.now.tree.now end side key.now }
    {
        self.walk(self.path_to(end).lists(), key, side)
    }
}

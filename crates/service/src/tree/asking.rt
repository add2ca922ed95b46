// Asking a tree. Whoever asks often makes room once, and asks one index.
ghost use Rattle.std.specs.Fn.{FnOnceReturnsAt};
ghost use Rattle.std.specs.Prelude.{◌≡◌, IfOk};
ghost use Rattle.index.specs.Counts.{LookupCounts, OfferCounts};
ghost use Rattle.layout.specs.KeyTrees.{key_tree};
ghost use Rattle.register.specs.Answers.{lookup_read, offer_read};
ghost use Rattle.register.specs.Register.{look_up_answer, offer_answer};
ghost use Rattle.terms.specs.Order.{term_order};
ghost use Rattle.terms.specs.Unions.{no_marks, union_of_marks};
ghost use Rattle.service.specs.Asked.{Answers, Asks, asked};
ghost use Rattle.service.specs.Building.{Builds, BuildsAmply};
ghost use Rattle.service.specs.Rooms.{sizes_of};
ghost use Rattle.service.specs.Trees.{register_of, room_of};

use crate::refusal::Refusal;
use crate::room::Room;
use crate::tree::Tree;
use faults::Fault;
use index::Index;
use orders::side::Side;
use register::answers::{Lookup, Offer};
use std::alloc::{AllocError, Global};
use terms::key::Term;
use terms::marks::Marks;

impl Tree {
    // Room for an index of the tree.
    pub fn room(&self, heap: Global) -> Result<Room, AllocError>
        ensures { IfOk result (λ room. sizes_of room ≡ room_of self.now) }
    {
        Room::new(heap, self.lists.len(), self.entries.len())
    }

    // An index of the tree, or the refusal of its build. The tree's own room is never too small.
    pub fn index<'m>(&self, room: &'m mut Room) -> Result<Index<'m, Term, Marks>, Fault>
        ensures answer { Builds (register_of self.now) (sizes_of room.old) result }
        ensures ample { sizes_of room.old ≡ room_of self.now → BuildsAmply (register_of self.now) result }
    {
        room.index(&self.shelf())
    }

    // What a question comes to, asked of an index that is built for it.
    pub fn ask<T, F: FnOnce(&Index<'_, Term, Marks>) -> Result<T, Fault>>(
        &self,
        heap: Global,
        question: F,
    ) -> Result<T, Refusal>
        requires { F.IsAlwaysCallable question }
        ensures { Asks (register_of self.now) (λ index answer. FnOnceReturnsAt F.FnOnce question index answer) result }
    {
        let mut room = self.room(heap)?;
        let index = self.index(&mut room)?;
        Ok(question(&index)?)
    }

    // Where a key stands in each list from the root to an end list.
    pub fn look_up(
        &self,
        heap: Global,
        list: usize,
        key: &Term,
        side: Side,
    ) -> Result<Lookup, Refusal>
        ensures answer { Answers lookup_read (asked (register_of self.now) (λ reg. look_up_answer term_order reg list side key.now)) result }
        ensures counts { IfOk result (λ l. LookupCounts term_order (key_tree (register_of self.now)) list side key.now l.comparisons) }
    {
        self.ask(heap, |index| index.look_up(list, key, side))
    }

    // The entries from the root to an end list that have a key.
    pub fn offer(&self, heap: Global, list: usize, key: &Term) -> Result<Offer<Marks>, Refusal>
        ensures answer { Answers offer_read (asked (register_of self.now) (λ reg. offer_answer term_order no_marks union_of_marks reg list key.now)) result }
        ensures counts { IfOk result (λ o. OfferCounts term_order (key_tree (register_of self.now)) list key.now o.comparisons) }
    {
        self.ask(heap, |index| index.offer(list, key))
    }
}

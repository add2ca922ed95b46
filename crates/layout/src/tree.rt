// Key trees that only clauses read.
ghost use Rattle.std.specs.Prelude.{◌≡◌, ℕ, List, []};
ghost use Rattle.std.specs.Coded.{coded_list, coded×, coded_ℕ};
ghost use base.Fml.{ftrue};
ghost use Rattle.cascade.specs.Trees.{augmented_lists};
ghost use Rattle.layout.specs.KeyTrees.{key_tree};

use orders::KeyOrder;
use shelves::Shelf;
use std::marker::{Model, PhantomData};

// A key tree, as clauses see it. It has no bytes and owns nothing, so only clauses say which lists it has.
pub struct Tree<K> {
    of: PhantomData<K>,
    ghost lists: { List (ℕ × List K) },
}

impl<K> Model for Tree<K> {
    ghost Value = { List (ℕ × List K) };

    ghost coded = { coded_list (coded× coded_ℕ (coded_list K.code)) };

    ghost view = { λ t. t.lists };

    ghost also_owns = { λ _. ftrue };
}

impl<K> Tree<K> {
    // The one function proved by hand: code has no word for what a ghost field of data is.
    pub(crate) fn of<L: HasTree<K>>(lists: &L) -> Self
        ensures { result ≡ L.tree lists.now }
    {
        Self { of: PhantomData }
    }
}

impl<K> Drop for Tree<K> {
    fn drop(self) {
        let Self { of: _ } = self;
    }
}

// Nothing of a key crosses with it. Both are proved in proofs/tree/Tree/TheSendSync.
unsafe impl<K> Send for Tree<K> {}

unsafe impl<K> Sync for Tree<K> {}

// The augmented lists of a key tree.
#[derive(Drop)]
pub struct Augmented<K: KeyOrder> {
    pub(crate) tree: Tree<K>,
}

impl<K: KeyOrder> Model for Augmented<K> {
    ghost Value = { List (List (ℕ × K)) };

    ghost coded = { coded_list (coded_list (coded× coded_ℕ K.code)) };

    ghost view = { λ a. augmented_lists K.order a.tree };
}

// A value off which a key tree is read.
pub(crate) trait HasTree<K> {
    ghost tree: { Self → List (ℕ × List K) };
}

#[derive(Drop)]
pub(crate) struct NoLists;

impl<K> HasTree<K> for NoLists {
    ghost tree = { λ _. [] };
}

#[derive(Drop)]
pub(crate) struct ShelfLists<'s, S>(pub(crate) &'s S);

impl<'s, S: Shelf> HasTree<S::Key> for ShelfLists<'s, S> {
    ghost tree = { λ s. key_tree (S.meaning s.0.now) };
}

// The key tree of a shelf, in order or not: a walk asks only whose augmented lists lie in memory.
pub fn tree_of<S: Shelf>(shelf: &S) -> Tree<S::Key>
    ensures { result ≡ key_tree (S.meaning shelf.now) }
{
    Tree::of(&ShelfLists(shelf))
}

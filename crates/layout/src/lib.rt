// A layout: a value of no bytes whose type says that some lists are the augmented lists of a key tree whose lists are
// in order. A struct that holds one, or a reference to one, has these facts of its lists, under the order of its keys.
#![tactic(auto)]

ghost use Rattle.std.specs.Prelude.{◌≡◌, true, []};
ghost use Rattle.cascade.specs.Trees.{augmented_lists};
ghost use Rattle.layout.specs.KeyTrees.{key_tree, all_in_order};

use crate::tree::{Augmented, HasTree, NoLists, ShelfLists, Tree};
use orders::KeyOrder;
use shelves::Shelf;

pub mod tree;

// That `augmented` are the augmented lists of `tree`, and that every list of `tree` is in order. No code outside this
// crate can make one but by `empty` and `of_shelf`.
#[derive(Drop)]
pub struct Layout<K: KeyOrder> {
    pub tree: Tree<K>,
    augmented: Augmented<K>,
    pub ghost augmented_of_tree: { augmented ≡ augmented_lists K.order tree },
    pub ghost in_order: { all_in_order K.order tree ≡ true },
}

impl<K: KeyOrder> Layout<K> {
    fn of<L: HasTree<K>>(lists: &L) -> Self
        requires { all_in_order K.order (L.tree lists.now) ≡ true }
        ensures { (result.tree ≡ L.tree lists.now) × (result.augmented ≡ augmented_lists K.order (L.tree lists.now)) }
    {
        Self {
            tree: Tree::of(lists),
            augmented: Augmented {
                tree: Tree::of(lists),
            },
        }
    }
}

// The layout of no lists.
pub fn empty<K: KeyOrder>() -> Layout<K>
    ensures { (result.tree ≡ []) × (result.augmented ≡ []) }
{
    Layout::of(&NoLists)
}

// The layout of the lists of a shelf, which are in order.
pub fn of_shelf<S: Shelf>(shelf: &S) -> Layout<S::Key>
    requires { all_in_order S.Key.order (key_tree (S.meaning shelf.now)) ≡ true }
    ensures { (result.tree ≡ key_tree (S.meaning shelf.now)) × (result.augmented ≡ augmented_lists S.Key.order (key_tree (S.meaning shelf.now))) }
{
    Layout::of(&ShelfLists(shelf))
}

// What a layout says of its lists.
pub fn known<K: KeyOrder>(layout: &Layout<K>)
    ensures { (layout.now.augmented ≡ augmented_lists K.order layout.now.tree) × (all_in_order K.order layout.now.tree ≡ true) }
{}

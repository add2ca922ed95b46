// Laying lists down in the lent memory.
ghost use Rattle.std.specs.Prelude.{◌≡◌, ◌+◌, ◌++◌, length, drop};
ghost use Rattle.cascade.specs.Trees.{all_keys, all_augmented, augmented_lists};
ghost use Rattle.laying.specs.Laying.{CanLay};
ghost use Rattle.layout.specs.KeyTrees.{key_tree};
ghost use Rattle.register.specs.Memory.{keys_laid, rows_laid, payloads_laid};

use crate::Memory;
use laying::lay_down;
use orders::{KeyOrder, Payload};
use plan::table::ListTable;
use shelves::Shelf;

impl<'m, K: KeyOrder, P: Payload> Memory<'m, K, P> {
    // Lays the lists of a shelf down from the starts of the memories. What lies behind stays.
    pub(crate) fn lay_down<S: Shelf<Key = K, Payload = P>>(&mut self, shelf: &S, table: &ListTable)
        requires { CanLay K.order (key_tree (S.meaning shelf.now)) table.now (length self.old.keys.now) (length self.old.rows.now) (length self.old.payloads.now) }
        ensures keys { self.new.keys.now ≡ keys_laid (augmented_lists K.order (key_tree (S.meaning shelf.now))) ++ drop (all_augmented K.order (key_tree (S.meaning shelf.now))) self.old.keys.now }
        ensures rows { self.new.rows.now ≡ rows_laid (augmented_lists K.order (key_tree (S.meaning shelf.now))) ++ drop (all_augmented K.order (key_tree (S.meaning shelf.now)) + length (key_tree (S.meaning shelf.now))) self.old.rows.now }
        ensures payloads { self.new.payloads.now ≡ payloads_laid (S.meaning shelf.now) ++ drop (all_keys (key_tree (S.meaning shelf.now))) self.old.payloads.now }
    {
        lay_down(shelf, table, self.keys, self.rows, self.payloads);
    }
}

// Laying down what an index holds: the augmented lists of a shelf, their rows and the payloads of its lists, in lent
// memory and with no memory of its own. Each payload takes one question to the shelf, each key of an augmented list one
// question and a look at one sample of each child, and each list one pass over the list table.
#![tactic(auto)]

ghost use Rattle.std.specs.Prelude.{◌≡◌, ◌+◌, ◌++◌, length, drop};
ghost use Rattle.cascade.specs.Trees.{all_keys, augmented_lists, all_augmented};
ghost use Rattle.layout.specs.KeyTrees.{key_tree};
ghost use Rattle.register.specs.Memory.{keys_laid, rows_laid, payloads_laid};
ghost use Rattle.laying.specs.Laying.{CanLay};

use cascade::row::Row;
use plan::table::ListTable;
use shelves::Shelf;

mod children;
mod lists;
mod merge;
mod payloads;
mod sources;

// Lays the lists of a shelf down in the three memories, from their starts. What lies behind stays.
pub fn lay_down<S: Shelf>(
    shelf: &S,
    table: &ListTable,
    keys: &mut [S::Key],
    rows: &mut [Row],
    payloads: &mut [S::Payload],
)
    requires { CanLay S.Key.order (key_tree (S.meaning shelf.now)) table.now (length keys.old) (length rows.old) (length payloads.old) }
    ensures keys { keys.new ≡ keys_laid (augmented_lists S.Key.order (key_tree (S.meaning shelf.now))) ++ drop (all_augmented S.Key.order (key_tree (S.meaning shelf.now))) keys.old }
    ensures rows { rows.new ≡ rows_laid (augmented_lists S.Key.order (key_tree (S.meaning shelf.now))) ++ drop (all_augmented S.Key.order (key_tree (S.meaning shelf.now)) + length (key_tree (S.meaning shelf.now))) rows.old }
    ensures payloads { payloads.new ≡ payloads_laid (S.meaning shelf.now) ++ drop (all_keys (key_tree (S.meaning shelf.now))) payloads.old }
{
    payloads::lay_payloads(shelf, table, payloads);
    lists::lay_lists(shelf, table, keys, rows);
}

// Laying keys and rows down: from the last list to the first, since a list's samples are read from its children's keys,
// which lie behind its own.
ghost use Rattle.std.specs.Prelude.{◌≡◌, ◌+◌, ◌++◌, length, drop};
ghost use Rattle.cascade.specs.Trees.{all_keys, augmented_lists, all_augmented};
ghost use Rattle.layout.specs.KeyTrees.{key_tree};
ghost use Rattle.register.specs.Memory.{keys_laid, rows_laid};
ghost use Rattle.laying.specs.Laying.{CanLay};

use crate::children::children_of;
use crate::sources::Sources;
use cascade::row::Row;
use plan::table::ListTable;
use shelves::Shelf;

// Lays the keys and the rows of all lists down.
pub fn lay_lists<S: Shelf>(shelf: &S, table: &ListTable, keys: &mut [S::Key], rows: &mut [Row])
    requires { CanLay S.Key.order (key_tree (S.meaning shelf.now)) table.now (length keys.old) (length rows.old) (all_keys (key_tree (S.meaning shelf.now))) }
    ensures keys { keys.new ≡ keys_laid (augmented_lists S.Key.order (key_tree (S.meaning shelf.now))) ++ drop (all_augmented S.Key.order (key_tree (S.meaning shelf.now))) keys.old }
    ensures rows { rows.new ≡ rows_laid (augmented_lists S.Key.order (key_tree (S.meaning shelf.now))) ++ drop (all_augmented S.Key.order (key_tree (S.meaning shelf.now)) + length (key_tree (S.meaning shelf.now))) rows.old }
{
    for (list, run) in table.runs[..table.len].iter().enumerate().rev() {
        let end = run.start + run.length;
        let (front, behind) = keys.split_at_mut(end);
        let sources = Sources {
            shelf,
            list,
            children: children_of(table, list, behind, end),
        };
        sources.merge(
            &mut front[run.start..],
            &mut rows[run.start + list..=end + list],
        );
    }
}

// The stable merge of a list's own keys and its children's samples.
ghost use Rattle.std.specs.Prelude.{◌≡◌, ◌+◌, length, map};
ghost use Rattle.cascade.specs.Rows.{rows_of};
ghost use Rattle.cascade.specs.Trees.{keys_of, keys_at, augmented};
ghost use Rattle.layout.specs.KeyTrees.{key_tree};
ghost use Rattle.laying.specs.Merging.{Mergeable};

use crate::sources::Sources;
use cascade::row::Row;
use shelves::Shelf;

impl<S: Shelf> Sources<'_, '_, S> {
    // Writes the keys of the augmented list, and before each key and at the end the row that counts the keys so far.
    pub fn merge(&self, keys: &mut [S::Key], rows: &mut [Row])
        requires mergeable { Mergeable S.Key.order (augmented S.Key.order (key_tree (S.meaning self.now.shelf.now)) self.now.list) (keys_at (key_tree (S.meaning self.now.shelf.now)) self.now.list) (map (λ child. child.now) self.now.children) }
        requires whole { length keys.old ≡ length (augmented S.Key.order (key_tree (S.meaning self.now.shelf.now)) self.now.list) }
        requires one_more { length rows.old ≡ length keys.old + 1 }
        ensures keys { keys.new ≡ keys_of (augmented S.Key.order (key_tree (S.meaning self.now.shelf.now)) self.now.list) }
        ensures rows { rows.new ≡ rows_of (augmented S.Key.order (key_tree (S.meaning self.now.shelf.now)) self.now.list) }
    {
        let mut row = Row::default();
        for (p, key) in keys.iter_mut().enumerate() {
            rows[p] = row;
            let (source, least) = self.least(&row).unwrap();
            *key = least;
            source.count(&mut row);
        }
        rows[keys.len()] = row;
    }
}

// The sources of an augmented list: the list's own keys on the shelf, and the samples of its children in key memory.
ghost use Rattle.std.specs.Prelude.{◌≡◌, ◌+◌, ◌^◌, ◌<◌, map};
ghost use Rattle.std.specs.List.{slice_get};
ghost use Rattle.std.specs.Option.{option_map};
ghost use Rattle.cascade.specs.Lists.{samples};
ghost use Rattle.cascade.specs.Trees.{keys_at};
ghost use Rattle.layout.specs.KeyTrees.{key_tree};
ghost use Rattle.laying.specs.Merging.{source_count, head_of, lesser, least_head, taken_of, counted_in};
ghost use Rattle.laying.specs.Numbering.{number_of, numbered};

use cascade::row::Row;
use orders::KeyOrder;
use register::limits::{MOST_CHILDREN, SAMPLE_STEP};
use shelves::Shelf;

// Where a key of an augmented list comes from: the list itself, or its child with an ordinal.
#[derive(Clone, Copy, PartialEq, Eq, Debug)]
pub enum Source {
    Own,
    Child(usize),
}

impl Source {
    // Counts one more of this source.
    pub fn count(self, row: &mut Row)
        requires { (number_of self < source_count) × (taken_of row.old (number_of self) + 1 < 2 ^ 32) }
        ensures { row.new ≡ counted_in row.old (number_of self) }
    {
        match self {
            Source::Own => row.own += 1,
            Source::Child(ordinal) => row.children[ordinal] += 1,
        }
    }
}

// The sample behind the first `taken` ones.
fn sample<K: Copy>(keys: &[K], taken: u32) -> Option<K>
    ensures { result ≡ slice_get (samples keys.now) taken }
{
    keys.get(SAMPLE_STEP * taken as usize + SAMPLE_STEP - 1)
        .copied()
}

// The lesser of a source's head and the best head so far; the best where they are the same.
fn lesser_head<K: KeyOrder>(
    head: Option<K>,
    source: Source,
    best: Option<(Source, K)>,
) -> Option<(Source, K)>
    ensures { option_map numbered result ≡ lesser K.order head (number_of source) (option_map numbered best) }
{
    match head {
        Some(key) if best.is_none_or(|(_, least)| key.compare(&least).is_lt()) => {
            Some((source, key))
        }
        _ => best,
    }
}

// What the augmented list of a list is merged from.
#[derive_where(Clone, Copy)]
pub struct Sources<'s, 'k, S: Shelf> {
    pub shelf: &'s S,
    pub list: usize,
    // The keys of each child's augmented list, by ordinal; none where there is no child.
    pub children: [&'k [S::Key]; MOST_CHILDREN],
}

impl<S: Shelf> Sources<'_, '_, S> {
    // The least of the keys that the row does not count, with its source; of same ones that of the first source.
    pub fn least(&self, row: &Row) -> Option<(Source, S::Key)>
        ensures { option_map numbered result ≡ least_head S.Key.order (head_of (keys_at (key_tree (S.meaning self.now.shelf.now)) self.now.list) (map (λ keys. keys.now) self.now.children) row.now) source_count }
    {
        let own = self.shelf.entry(self.list, row.own as usize);
        let mut best = own.map(|entry| (Source::Own, entry.key));
        for (ordinal, keys) in self.children.iter().enumerate() {
            let head = sample(keys, row.children[ordinal]);
            best = lesser_head(head, Source::Child(ordinal), best);
        }
        best
    }
}

// Loading a tree, and reading what was loaded.
ghost use Rattle.std.specs.Prelude.{◌≡◌};
ghost use Rattle.shelves.specs.Kinds.{stored_of};
ghost use Rattle.service.specs.Loading.{TreeLoads};
ghost use Rattle.service.specs.Trees.{lists_of, entries_of, register_of};

use crate::fillers::some_term;
use crate::refusal::Refusal;
use crate::tree::Tree;
use orders::entry::Entry;
use shelves::rows::ListRow;
use shelves::stored::Stored;
use std::alloc::Global;
use terms::key::Term;
use terms::marks::Marks;
use treefiles::load::{check, load};

impl Tree {
    // Loads a file into memory that is taken for it: a check of the file tells how much.
    pub fn load(heap: Global, file: &[u8]) -> Result<Tree, Refusal>
        ensures { TreeLoads file.now result }
    {
        let needed = check(file)?;
        let no_entry = Entry {
            key: some_term(),
            payload: Marks::default(),
        };
        let mut lists = vec![in heap; ListRow::default(); needed.lists]?;
        let mut entries = vec![in heap; no_entry; needed.entries]?;
        load(file, lists.as_mut_slice(), entries.as_mut_slice())?;
        Ok(Tree { lists, entries })
    }

    // The lists, in file order.
    pub fn lists(&self) -> &[ListRow]
        ensures { result.now ≡ lists_of self.now }
    {
        self.lists.as_slice()
    }

    // The entries of all lists, list after list.
    pub fn entries(&self) -> &[Entry<Term, Marks>]
        ensures { result.now ≡ entries_of self.now }
    {
        self.entries.as_slice()
    }

    // The shelf that an index is built from.
    pub fn shelf(&self) -> Stored<'_, Term, Marks>
        ensures { stored_of result ≡ register_of self.now }
    {
        Stored::new(self.lists(), self.entries())
    }
}

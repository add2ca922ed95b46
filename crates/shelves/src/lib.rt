// Shelves: sources of lists that answer questions about their lists and entries.
#![tactic(auto)]

ghost use Rattle.std.specs.Prelude.{◌≡◌, List, length};
ghost use Rattle.shelves.specs.Meaning.{Branch, parent_at, count_at, entry_at};

use orders::entry::Entry;
use orders::{KeyOrder, Payload};

pub mod either;
pub mod rows;
pub mod sieved;
pub mod slots;
pub mod stored;

// A shelf means a number of lists, each with the number of its parent and its entries. Lists and places count
// from 0. Every number may be asked for, and a question changes nothing.
pub trait Shelf {
    type Key: KeyOrder;

    type Payload: Payload;

    ghost meaning: { Self → List (Branch Self.Key Self.Payload) };

    // How many lists there are.
    fn lists(&self) -> usize
        ensures { result ≡ length (meaning self.now) };

    // The parent of a list; nothing where there is no such list.
    fn parent(&self, list: usize) -> Option<usize>
        ensures { result ≡ parent_at (meaning self.now) list };

    // The number of a list's entries; 0 where there is no such list.
    fn count(&self, list: usize) -> usize
        ensures { result ≡ count_at (meaning self.now) list };

    // The entry at a place of a list; nothing where there is no such list or place.
    fn entry(&self, list: usize, place: usize) -> Option<Entry<Self::Key, Self::Payload>>
        ensures { result ≡ entry_at (meaning self.now) list place };
}

// Checking and loading tree files.
ghost use Rattle.std.specs.Prelude.{◌≡◌, ◌≤◌, length};
ghost use Rattle.treefiles.specs.Filling.{Room, CanStore, Stores, Asks};
ghost use Rattle.treefiles.specs.Loading.{checked, Holds, Loads};
ghost use Rattle.treefiles.specs.Reader.{read};

use crate::item::Item;
use crate::loaded::Loaded;
use crate::loader::Loader;
use crate::loader::reading::check_opening;
use faults::{Fault, Reason};
use orders::entry::Entry;
use shelves::rows::ListRow;
use terms::key::Term;
use terms::marks::Marks;

// Checks a whole file: how many lists and entries it holds, or its refusal.
pub fn check(file: &[u8]) -> Result<Loaded, Fault>
    ensures { result ≡ checked (read file.now) }
{
    check_opening(file)?;
    let mut loader = Loader::new(file);
    // Not an `Iterator`: that would have to end behind a refusal, and the counts are asked for behind the loop.
    while let Some(_) = loader.next()? {}
    Ok(loader.loaded())
}

// The two memories that a load fills.
#[derive(Drop)]
struct Memories<'m> {
    lists: &'m mut [ListRow],
    entries: &'m mut [Entry<Term, Marks>],
}

impl Memories<'_> {
    // Stores an item at its place; `upto` counts it already.
    fn store(&mut self, item: Item, upto: Loaded)
        requires { CanStore item upto self.old.lists.now self.old.entries.now }
        ensures stores { Stores item upto self.old.lists.now self.new.lists.now self.old.entries.now self.new.entries.now }
        ensures same_lists { self.new.lists.ghost_name ≡ self.old.lists.ghost_name }
        ensures same_entries { self.new.entries.ghost_name ≡ self.old.entries.ghost_name }
    {
        match item {
            Item::List(parent) => self.lists[upto.lists - 1] = ListRow { parent, count: 0 },
            Item::Entry(entry) => {
                self.lists[upto.lists - 1].count += 1;
                self.entries[upto.entries - 1] = entry;
            }
            Item::Closing => {}
        }
    }

    // Fills the memories from a file that was checked and for which there is room.
    fn fill(&mut self, file: &[u8])
        requires { Room file.now (length self.old.lists.now) (length self.old.entries.now) }
        ensures holds { (room : Room file.now (length self.old.lists.now) (length self.old.entries.now)) → Holds room.tree self.old.lists.now self.new.lists.now self.old.entries.now self.new.entries.now }
        ensures same_lists { self.new.lists.ghost_name ≡ self.old.lists.ghost_name }
        ensures same_entries { self.new.entries.ghost_name ≡ self.old.entries.ghost_name }
    {
        let mut loader = Loader::new(file);
        while let Ok(Some(item)) = loader.next() {
            self.store(item, loader.loaded());
        }
    }
}

// The number by which a refusal names a memory.
#[derive(Clone, Copy)]
enum Memory {
    Lists = 1,
    Entries = 2,
}

// Refuses where a memory has fewer places than are needed.
fn ask_room(memory: Memory, needed: usize, places: usize) -> Result<(), Fault>
    ensures { Asks memory needed places result }
{
    if needed > places {
        return Err(Fault::new(Reason::LoadMemoryShort, memory as usize, needed));
    }
    Ok(())
}

// Loads a tree file: checks the whole file, then fills list and entry memory from their start and says how many
// places of each it has filled. What lies behind them stays. A refusal leaves both memories as they were.
pub fn load(
    file: &[u8],
    lists: &mut [ListRow],
    entries: &mut [Entry<Term, Marks>],
) -> Result<Loaded, Fault>
    ensures { Loads file.now lists.old lists.new entries.old entries.new result }
{
    let needed = check(file)?;
    ask_room(Memory::Lists, needed.lists, lists.len())?;
    ask_room(Memory::Entries, needed.entries, entries.len())?;
    Memories { lists, entries }.fill(file);
    Ok(needed)
}

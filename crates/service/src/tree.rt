// A tree file in memory of its own.
use orders::entry::Entry;
use shelves::rows::ListRow;
use terms::key::Term;
use terms::marks::Marks;

pub mod asking;
pub mod judging;
pub mod loading;

#[derive(Drop)]
pub struct Tree {
    lists: Vec<ListRow>,
    entries: Vec<Entry<Term, Marks>>,
}

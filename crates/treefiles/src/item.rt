// What a field of a tree file says.
use orders::entry::Entry;
use terms::key::Term;
use terms::marks::Marks;

#[derive(Clone, Copy)]
pub enum Item {
    // A list begins; its parent.
    List(usize),
    // An entry of the latest list.
    Entry(Entry<Term, Marks>),
    // The file is closed.
    Closing,
}

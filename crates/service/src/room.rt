// The memory that an index is laid down in.
use cascade::row::Row;
use terms::key::Term;
use terms::marks::Marks;

pub mod making;

#[derive(Drop)]
pub struct Room {
    keys: Vec<Term>,
    rows: Vec<Row>,
    payloads: Vec<Marks>,
}

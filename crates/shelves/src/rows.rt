// A row of a list table: the parent of a list, and how many entries it claims.
#[derive(Clone, Copy, PartialEq, Eq, Default, Debug)]
pub struct ListRow {
    pub parent: usize,
    pub count: usize,
}

// A row of a point table: an entry that lies in a slot.
#[derive(Clone, Copy, PartialEq, Eq, Debug)]
pub struct Point<K, P> {
    pub slot: u8,
    pub key: K,
    pub payload: P,
}

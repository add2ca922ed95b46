// The list table of an index.
ghost use Rattle.std.specs.Prelude.{◌≡◌, ◌≤◌, length, take};

use register::limits::MOST_LISTS;

// A list and its runs in memory. Its keys, those of its augmented list, lie in key memory from `start` on, and its rows in
// row memory from `start` and its number on, one more than keys. Its payloads lie in payload memory from `first` on.
#[derive(Clone, Copy, PartialEq, Eq, Default, Debug)]
pub struct ListRun {
    pub parent: usize,
    // How many of its siblings have smaller numbers.
    pub ordinal: usize,
    pub start: usize,
    // How many keys its augmented list has.
    pub length: usize,
    pub first: usize,
    // How many entries it has.
    pub count: usize,
}

// The lists of an index: `len` of them.
#[derive(Clone, Copy)]
pub struct ListTable {
    pub len: usize,
    pub runs: [ListRun; MOST_LISTS],
    pub ghost few: { len ≤ 128 },
}

impl ListTable {
    // The runs of the lists there are.
    pub fn lists(&self) -> &[ListRun]
        ensures runs { result.now ≡ take self.now.len self.now.runs }
        ensures count { length result.now ≡ self.now.len }
    {
        &self.runs[..self.len]
    }
}

// A row of the table that no list has.
pub const NO_RUN: ListRun = ListRun {
    parent: 0,
    ordinal: 0,
    start: 0,
    length: 0,
    first: 0,
    count: 0,
};

// The limits of an index.

// How many lists there are at the most.
pub const MOST_LISTS: usize = 128;

// How many edges a list is below the root at the most.
pub const MOST_EDGES: usize = 8;

// How many lists stand on the longest path from the root.
pub const MOST_STOPS: usize = 9;

// How many children a list has at the most.
pub const MOST_CHILDREN: usize = 4;

// How many entries all lists have at the most.
pub const MOST_ENTRIES: usize = 40_000;

// How many spans a range has at the most.
pub const MOST_SPANS: usize = 10;

// Every so many keys of an augmented list one is a sample of its parent's.
pub const SAMPLE_STEP: usize = 4;

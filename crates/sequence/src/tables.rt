// The lists of the sequence that are its own.
use dated::key::DatedKey;
use orders::entry::Entry;
use samples::entry;
use shelves::rows::ListRow;
use terms::marks::Marks;

// Two lists over the same entries, the first of which takes one more: day 1 would follow day 6 in it.
pub const NEXT_LISTS: [ListRow; 2] = [
    ListRow {
        parent: 0,
        count: 4,
    },
    ListRow {
        parent: 0,
        count: 8,
    },
];

// The entries of the three lists, one list after the other.
pub fn entries() -> [Entry<DatedKey, Marks>; 16] {
    [
        entry(2, 0),
        entry(4, 4),
        entry(6, 0),
        entry(1, 0),
        entry(3, 0),
        entry(4, 0),
        entry(5, 4),
        entry(7, 0),
        entry(8, 0),
        entry(11, 0),
        entry(13, 1),
        entry(3, 1),
        entry(4, 0),
        entry(4, 2),
        entry(24, 0),
        entry(25, 0),
    ]
}

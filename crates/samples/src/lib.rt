// Lists and points that the sequence program and the tests share. Keys are days, and payloads are marks.
#![tactic(auto)]

ghost use Rattle.std.specs.Prelude.{◌≡◌};
ghost use Rattle.samples.specs.Days.{day_of, entry_of, point_of, nine};

use dated::key::DatedKey;
use orders::entry::Entry;
use shelves::rows::{ListRow, Point};
use shelves::slots::SIEVE_LISTS;
use terms::marks::Marks;

// The key of a day.
pub fn day(number: u32) -> DatedKey
    ensures { result ≡ day_of number }
{
    DatedKey {
        day: number,
        serial: 0,
    }
}

// An entry of a day.
pub fn entry(number: u32, bits: u32) -> Entry<DatedKey, Marks>
    ensures { result ≡ entry_of number bits }
{
    Entry {
        key: day(number),
        payload: Marks { bits },
    }
}

// A point of a day. Where each has a bit of its own, joined marks tell which points are in them.
pub fn point(slot: u8, number: u32, bits: u32) -> Point<DatedKey, Marks>
    ensures { result ≡ point_of slot number bits }
{
    Point {
        slot,
        key: day(number),
        payload: Marks { bits },
    }
}

// Three lists, each below the one before it, with 3, 8 and 5 entries.
pub const LISTS: [ListRow; 3] = [
    ListRow {
        parent: 0,
        count: 3,
    },
    ListRow {
        parent: 0,
        count: 8,
    },
    ListRow {
        parent: 1,
        count: 5,
    },
];

// How many keys, rows and payloads there is room for: more than the sieved points take, and more than the three lists do.
pub const KEYS: usize = 80;

pub const ROWS: usize = KEYS + SIEVE_LISTS;

pub const PAYLOADS: usize = 64;

// Points in order of their days: on both edges of the rectangle from slot 5 to 9 and day 3 to 7, next to it, of equal days, and in
// the outermost slots.
pub fn points() -> [Point<DatedKey, Marks>; 9]
    ensures { result ≡ nine }
{
    [
        point(5, 2, 1),
        point(0, 3, 2),
        point(63, 3, 4),
        point(9, 3, 8),
        point(9, 4, 16),
        point(5, 4, 32),
        point(5, 7, 64),
        point(10, 7, 128),
        point(8, 9, 256),
    ]
}

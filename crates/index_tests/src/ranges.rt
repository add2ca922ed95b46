// Ranges over a sieved shelf, and sequences of calls.
use cascade::row::Row;
use dated::key::DatedKey;
use faults::{Fault, Reason};
use index::Index;
use index::requests::{Granted, Outcome, Request};
use orders::side::Side;
use register::answers::Span;
use samples::{KEYS, PAYLOADS, ROWS, day, points};
use shelves::rows::ListRow;
use shelves::sieved::Sieved;
use shelves::slots::{SIEVE_LISTS, parent_of};
use shelves::stored::Stored;
use std::test::Fail;
use terms::marks::Marks;

// The first span, how many spans there are, and the joined marks, of a range over the points.
fn ranged(a: usize, b: usize, low: u32, high: u32) -> Result<(Span, usize, u32), Fault> {
    let points = points();
    let mut keys = [day(0); KEYS];
    let mut rows = [Row::default(); ROWS];
    let mut payloads = [Marks::default(); PAYLOADS];
    let mut index = Index::set_up(&mut keys, &mut rows, &mut payloads);
    index.build(&Sieved::new(&points)?)?;
    let range = index.range(a, b, &day(low), &day(high))?;
    Ok((range.spans[0], range.used, range.payload.bits))
}

fn span(list: usize, first: usize, after: usize) -> Span {
    Span { list, first, after }
}

#[test]
fn rectangles(rt: HostRuntime) {
    assert_eq!(rt;
        ranged(5, 9, 3, 7),
        Ok((span(34, 0, 0), 3, 8 + 16 + 32 + 64))
    );
    assert_eq!(rt; ranged(5, 5, 4, 4), Ok((span(68, 1, 2), 1, 32)));
    assert_eq!(rt; ranged(0, 0, 3, 3), Ok((span(63, 0, 1), 1, 2)));
    assert_eq!(rt; ranged(63, 63, 1, 9), Ok((span(126, 0, 1), 1, 4)));
    assert_eq!(rt; ranged(0, 63, 3, 3), Ok((span(0, 1, 4), 1, 2 + 4 + 8)));
    assert_eq!(rt; ranged(1, 62, 0, 1), Ok((span(4, 0, 0), 10, 0)));
}

// Of several questions that get a "no" the first is the refusal.
#[test]
fn refusals_in_order(rt: HostRuntime) {
    assert_eq!(rt;
        ranged(9, 5, 7, 3),
        Err(Fault::new(Reason::SlotLimits, 9, 5))
    );
    assert_eq!(rt;
        ranged(5, 64, 7, 3),
        Err(Fault::new(Reason::SlotLimits, 5, 64))
    );
    assert_eq!(rt;
        ranged(5, 9, 7, 3),
        Err(Fault::new(Reason::KeyLimits, 0, 0))
    );
    assert_eq!(rt; other_shape(), Err(Fault::new(Reason::NotSieved, 0, 0)));
}

// As many lists as the sieve has, all but the last of which have its parents.
fn almost_sieve() -> [ListRow; SIEVE_LISTS] {
    let mut lists = [ListRow::default(); SIEVE_LISTS];
    for (v, list) in lists.iter_mut().enumerate() {
        list.parent = parent_of(v);
    }
    lists[126].parent = 61;
    lists
}

// A range over such lists, with slots and keys that are out of order too.
fn other_shape() -> Result<usize, Fault> {
    let lists = almost_sieve();
    let mut keys = [day(0); 1];
    let mut rows = [Row::default(); SIEVE_LISTS];
    let mut payloads = [Marks::default(); 1];
    let mut index = Index::set_up(&mut keys, &mut rows, &mut payloads);
    index.build(&Stored::new(&lists, &[]))?;
    let range = index.range(9, 5, &day(7), &day(3))?;
    Ok(range.used)
}

// Runs four calls twice, each time with other places for outcomes. Returns how many calls each run carried out.
fn run_twice<'s>(
    shelf: &'s Sieved<'s, DatedKey, Marks>,
    outcomes: &mut [Outcome<Marks>],
    later: &mut [Outcome<Marks>],
) -> (usize, usize) {
    let calls = [
        Request::Offer {
            list: 3,
            key: day(3),
        },
        Request::Build(shelf),
        Request::LookUp {
            list: 0,
            key: day(3),
            side: Side::High,
        },
        Request::Clear,
    ];
    let mut keys = [day(0); KEYS];
    let mut rows = [Row::default(); ROWS];
    let mut payloads = [Marks::default(); PAYLOADS];
    let mut index = Index::set_up(&mut keys, &mut rows, &mut payloads);
    let first = index.run(&calls, outcomes);
    let second = index.run(&calls, later);
    (first, second)
}

// Calls are carried out while there is a place for an outcome, and the outcomes behind the last call stay.
#[test]
fn as_many_as_both_hold(rt: HostRuntime) -> Result<(), Fail> {
    let points = points();
    let shelf = Sieved::new(&points)?;
    let mut outcomes = [Ok(Granted::Amended); 3];
    let mut later = [Ok(Granted::Amended); 5];
    assert_eq!(rt; run_twice(&shelf, &mut outcomes, &mut later), (3, 4));
    assert_eq!(rt; outcomes[0], Err(Fault::new(Reason::NoSuchList, 3, 0)));
    assert_eq!(rt; outcomes[1], Ok(Granted::Built));
    assert!(rt; matches!(outcomes[2], Ok(Granted::Found(lookup)) if lookup.stops[0].place == 4));
    // Day 3 has three entries in list 0 and two each in lists 1 and 3.
    assert!(rt; matches!(later[0], Ok(Granted::Offered(offer)) if offer.entries == 7));
    assert_eq!(rt; later[3], Ok(Granted::Cleared));
    assert_eq!(rt; later[4], Ok(Granted::Amended));
    Ok(())
}

// A sequence of calls served over one index: lists are built, looked up in, amended, and built again over a sieved shelf.
// Prints each call with its outcome.
#![tactic(auto)]

use cascade::row::Row;
use index::requests::{Granted, Request};
use index::run::serve;
use orders::side::Side;
use samples::{KEYS, LISTS, PAYLOADS, ROWS, day, points};
use shelves::either::Either;
use shelves::sieved::Sieved;
use shelves::stored::Stored;
use std::io;
use terms::marks::Marks;

mod calls;
mod outcomes;
mod tables;

use calls::{AnyShelf, amend, look_up, offer, range};
use outcomes::print_all;
use tables::{NEXT_LISTS, entries};

// Serves the sequence over memory of its own, and prints it.
fn serve_all<'s>(
    rt: &HostRuntime,
    stored: &'s AnyShelf<'s>,
    unordered: &'s AnyShelf<'s>,
    sieved: &'s AnyShelf<'s>,
) -> io::Result<()> {
    let calls = [
        // No lists are there yet.
        look_up(2, 4, Side::Low),
        Request::Build(stored),
        look_up(2, 4, Side::Low),
        look_up(2, 4, Side::High),
        offer(2, 4),
        amend(2, 1, 1),
        amend(2, 5, 1),
        offer(2, 4),
        // A refused build leaves the lists that are there.
        Request::Build(unordered),
        look_up(2, 4, Side::Low),
        // Three lists are not the sieve's.
        range(5, 9, 3, 7),
        Request::Build(sieved),
        range(5, 9, 3, 7),
        // List 68 holds the points of slot 5, of which the second is of day 4.
        amend(68, 1, 1024),
        range(5, 5, 4, 4),
        range(9, 5, 7, 3),
        range(5, 9, 7, 3),
        Request::Clear,
    ];
    let mut keys = [day(0); KEYS];
    let mut rows = [Row::default(); ROWS];
    let mut payloads = [Marks::default(); PAYLOADS];
    let mut outcomes = [Ok(Granted::Cleared); 18];
    let index = serve(&mut keys, &mut rows, &mut payloads, &calls, &mut outcomes);
    drop(index);
    print_all(rt, &calls, &outcomes)
}

fn main(rt: HostRuntime) -> io::Result<()> {
    let entries = entries();
    let points = points();
    let stored = Either::First(Stored::new(&LISTS, &entries));
    let unordered = Either::First(Stored::new(&NEXT_LISTS, &entries));
    match Sieved::new(&points) {
        Ok(shelf) => serve_all(&rt, &stored, &unordered, &Either::Second(shelf)),
        Err(fault) => println!(rt; "the points are refused: {fault}"),
    }
}

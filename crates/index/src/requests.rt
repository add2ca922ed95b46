// Calls and their outcomes as values.
use faults::Fault;
use orders::side::Side;
use register::answers::{Lookup, Offer, Range};
use shelves::Shelf;

// A call on an index. A shelf is lent.
#[derive(Drop)]
pub enum Request<'s, S: Shelf> {
    Build(&'s S),
    Clear,
    Amend {
        list: usize,
        place: usize,
        by: S::Payload,
    },
    LookUp {
        list: usize,
        key: S::Key,
        side: Side,
    },
    Offer {
        list: usize,
        key: S::Key,
    },
    Range {
        a: usize,
        b: usize,
        low: S::Key,
        high: S::Key,
    },
}

// What a granted call answers.
#[derive(Clone, Copy, PartialEq, Eq, Debug)]
pub enum Granted<P> {
    Built,
    Cleared,
    Amended,
    Found(Lookup),
    Offered(Offer<P>),
    Ranged(Range<P>),
}

// What a call came to: it was granted, with its answer, or it was refused.
pub type Outcome<P> = Result<Granted<P>, Fault>;

// The calls of the sequence, in short words.
use dated::key::DatedKey;
use index::requests::Request;
use orders::side::Side;
use samples::day;
use shelves::either::Either;
use shelves::sieved::Sieved;
use shelves::stored::Stored;
use terms::marks::Marks;

// A shelf of the sequence: it has both kinds.
pub type AnyShelf<'s> = Either<Stored<'s, DatedKey, Marks>, Sieved<'s, DatedKey, Marks>>;

pub fn look_up<'s>(list: usize, number: u32, side: Side) -> Request<'s, AnyShelf<'s>> {
    Request::LookUp {
        list,
        key: day(number),
        side,
    }
}

pub fn offer<'s>(list: usize, number: u32) -> Request<'s, AnyShelf<'s>> {
    Request::Offer {
        list,
        key: day(number),
    }
}

pub fn amend<'s>(list: usize, place: usize, bits: u32) -> Request<'s, AnyShelf<'s>> {
    Request::Amend {
        list,
        place,
        by: Marks { bits },
    }
}

pub fn range<'s>(a: usize, b: usize, low: u32, high: u32) -> Request<'s, AnyShelf<'s>> {
    Request::Range {
        a,
        b,
        low: day(low),
        high: day(high),
    }
}

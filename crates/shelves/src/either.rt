// A shelf of one of two kinds.
ghost use Rattle.shelves.specs.Kinds.{either_of};

use crate::Shelf;
use orders::entry::Entry;

// One of two kinds of shelf with the same keys and payloads. It means what the one that it holds means.
// Each question matches: one method for all four would take two closures or hand out a `dyn`, which is no plainer.
#[derive(Clone, Copy)]
pub enum Either<A, B> {
    First(A),
    Second(B),
}

impl<A: Shelf, B: Shelf<Key = A::Key, Payload = A::Payload>> Shelf for Either<A, B> {
    type Key = A::Key;

    type Payload = A::Payload;

    ghost meaning = { either_of A.Shelf.meaning B.Shelf.meaning };

    fn lists(&self) -> usize {
        match self {
            Either::First(a) => a.lists(),
            Either::Second(b) => b.lists(),
        }
    }

    fn parent(&self, list: usize) -> Option<usize> {
        match self {
            Either::First(a) => a.parent(list),
            Either::Second(b) => b.parent(list),
        }
    }

    fn count(&self, list: usize) -> usize {
        match self {
            Either::First(a) => a.count(list),
            Either::Second(b) => b.count(list),
        }
    }

    fn entry(&self, list: usize, place: usize) -> Option<Entry<A::Key, A::Payload>> {
        match self {
            Either::First(a) => a.entry(list, place),
            Either::Second(b) => b.entry(list, place),
        }
    }
}

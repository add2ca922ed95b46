// What the engine is generic over: key orders and payloads. Each is a trait whose laws an implementation proves.
#![tactic(auto)]

ghost use Rattle.std.specs.Prelude.{◌≡◌};
ghost use Rattle.std.specs.declared.cmp.Ordering.{Ordering};
ghost use Rattle.orders.specs.Laws.{LawfulOrder, LawfulJoin};

use std::cmp::Ordering;

pub mod entry;
pub mod side;

// An order of keys: of two keys it says exactly one, that the first is below, the same as or above the second.
// Keys that are the same need not be equal.
pub trait KeyOrder: Copy {
    ghost order: { Self → Self → Ordering };

    fn compare(&self, other: &Self) -> Ordering
        ensures { result ≡ order self.now other.now };

    ghost lawful: { LawfulOrder order };
}

// What an entry carries besides its key. Payloads are joined, in any order and grouping.
pub trait Payload: Copy {
    ghost neutral: { Self };

    ghost joined: { Self → Self → Self };

    fn neutral_payload() -> Self
        ensures { result ≡ neutral };

    fn join(self, other: Self) -> Self
        ensures { result ≡ joined self other };

    ghost lawful: { LawfulJoin neutral joined };
}

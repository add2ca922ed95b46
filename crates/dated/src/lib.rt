// Dated keys and word counts: a key order and a payload for lists that are kept by day.
#![tactic(auto)]

ghost use Rattle.std.specs.Prelude.{◌≡◌, ◌+◌, ◌-◌, ◌^◌, min};
ghost use Rattle.dated.specs.Days.{day_order};
ghost use Rattle.dated.specs.Counts.{no_words, sum_of_words};
ghost use Rattle.std.proofs.Common.{rules, arith};
ghost use Rattle.dated.specs.Alike.{alike};

use orders::{KeyOrder, Payload};
use std::cmp::Ordering;

pub mod key;
pub mod words;

use key::DatedKey;
use words::Words;

// The day is compared first, then the serial, as the fields of the key stand.
impl KeyOrder for DatedKey {
    ghost order = { day_order };

    ghost lawful = { Prim.search rules };

    fn compare(&self, other: &DatedKey) -> Ordering {
        self.cmp(other)
    }
}

// Addition that stays at the top.
impl Payload for Words {
    ghost neutral = { no_words };

    ghost joined = { sum_of_words };

    ghost lawful = { record { assoc = λ a b c. alike _ _ (omega arith); comm = λ a b. alike _ _ (omega arith); unit = λ a. alike _ _ (omega arith) } };

    fn neutral_payload() -> Words {
        Words { number: 0 }
    }

    fn join(self, other: Words) -> Words
        ensures value { result ≡ sum_of_words self other }
        ensures number_value { result.number ≡ min (self.number + other.number) (2 ^ 32 - 1) }
    {
        Words {
            number: self.number.saturating_add(other.number),
        }
    }
}

#[cfg(test)]
mod tests {
    use super::*;

    #[test]
    fn days_then_serials(rt: HostRuntime) {
        let monday = DatedKey { day: 1, serial: 9 };
        let tuesday = DatedKey { day: 2, serial: 3 };
        let later = DatedKey { day: 2, serial: 4 };
        assert_eq!(rt; monday.compare(&tuesday), Ordering::Less);
        assert_eq!(rt; later.compare(&tuesday), Ordering::Greater);
        assert_eq!(rt; later.compare(&later), Ordering::Equal);
    }

    #[test]
    fn words_stay_at_the_top(rt: HostRuntime) {
        let few = Words { number: 5 };
        let many = Words {
            number: 4_294_967_291,
        };
        assert_eq!(rt; few.join(Words { number: 7 }).number, 12);
        assert_eq!(rt; few.join(many).number, u32::MAX);
        assert_eq!(rt; Words::neutral_payload().join(many).number, many.number);
    }
}

// The order of term keys.
ghost use Rattle.std.specs.Prelude.{◌≡◌, ◌<◌, length};
ghost use Rattle.std.specs.List.{AllByRecursion};
ghost use Rattle.terms.specs.Order.{term_order, big_endian};
ghost use Rattle.terms.specs.Keys.{text_of};
ghost use Rattle.terms.specs.Lexes.{text-exchange, text-below, text-not-above};

use crate::key::Term;
use orders::KeyOrder;
use std::cmp::Ordering;

// Eight bytes as one number, the first byte the highest.
fn word(bytes: &[u8; 8]) -> u64
    ensures value { result ≡ big_endian bytes.now }
    ensures eight { length bytes.now ≡ 8 }
    ensures fits { AllByRecursion (λ b. b < 256) bytes.now }
{
    u64::from_be_bytes(*bytes)
}

// Terms are ordered by their texts. The zeros behind a text are below every byte of a text, so that the stored
// forms, which are of one length, give the same order, and they are compared eight bytes at a time: the arrays' own
// comparison takes two to three times as long.
impl KeyOrder for Term {
    ghost order = { term_order };

    ghost lawful = { record {
      exchange = λ a b. text-exchange (text_of a) (text_of b);
      below = λ a b c. text-below (text_of a) (text_of b) (text_of c);
      not_above = λ a b c. text-not-above (text_of a) (text_of b) (text_of c);
    } };

    fn compare(&self, other: &Term) -> Ordering {
        let (ours, _) = self.bytes.as_chunks();
        let (theirs, _) = other.bytes.as_chunks();
        for (a, b) in ours.iter().zip(theirs) {
            let found = word(a).cmp(&word(b));
            if found.is_ne() {
                return found;
            }
        }
        Ordering::Equal
    }
}

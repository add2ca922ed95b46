// Offers: all entries along a path whose key is the same as a sought one.
ghost use Rattle.std.specs.Prelude.{◌≡◌, ◌<◌, ◌≤◌, length};
ghost use Rattle.cascade.specs.Trees.{all_keys};
ghost use Rattle.walking.specs.Walked.{offered_at};
ghost use Rattle.walking.specs.Between.{spans_between};

use crate::walk::Cascade;
use orders::side::Side;
use orders::{KeyOrder, Payload};
use register::answers::{Offer, Span, Stop};
use register::limits::MOST_STOPS;

// The spans from the stops of one lookup to those of another, row by row.
fn spans_between(low: &[Stop; MOST_STOPS], high: &[Stop; MOST_STOPS]) -> [Span; MOST_STOPS]
    ensures { result ≡ spans_between low.now high.now }
{
    let mut spans = [Span::default(); MOST_STOPS];
    for (i, from) in low.iter().enumerate() {
        spans[i] = Span {
            list: from.list,
            first: from.place,
            after: high[i].place,
        };
    }
    spans
}

impl<'a, K: KeyOrder, P: Payload> Cascade<'a, K, P> {
    // An offer at list `end`: a low and a high lookup, and what lies between them.
    pub fn offer(&self, end: usize, key: &K) -> Offer<P>
        requires there { end < length self.now.tree.now }
        requires held { all_keys self.now.tree.now ≤ length self.now.payloads.now }
        ensures { result ≡ offered_at K.order P.neutral P.joined self.now.tree.now self.now.payloads.now end key.now }
    {
        let path = self.path_to(end);
        let low = self.walk(path.lists(), key, Side::Low);
        let high = self.walk(path.lists(), key, Side::High);
        let spans = spans_between(&low.stops, &high.stops);
        let (entries, payload) = self.join_spans(&spans[..low.used]);
        Offer {
            spans,
            used: low.used,
            entries,
            payload,
            comparisons: low.comparisons + high.comparisons,
        }
    }
}

// The joined payload of the entries in spans.
ghost use Rattle.std.specs.Prelude.{◌≡◌, ◌≤◌, length, fold};
ghost use Rattle.cascade.specs.Trees.{all_keys};
ghost use Rattle.walking.specs.Walked.{spans_payloads};
ghost use Rattle.walking.specs.Reached.{Spanned};

use crate::walk::Cascade;
use orders::{KeyOrder, Payload};
use register::answers::Span;

// A payload joined with all of a part of payload memory.
fn join_all<P: Payload>(payloads: &[P], start: P) -> P
    ensures { result ≡ fold P.joined start payloads.now }
{
    let mut all = start;
    // With the index, which says how many are joined so far.
    for (_, payload) in payloads.iter().enumerate() {
        all = all.join(*payload);
    }
    all
}

impl<'a, K: KeyOrder, P: Payload> Cascade<'a, K, P> {
    // The number of the entries in spans, and their joined payload.
    pub(crate) fn join_spans(&self, spans: &[Span]) -> (usize, P)
        requires spanned { Spanned self.now.tree.now spans.now }
        requires held { all_keys self.now.tree.now ≤ length self.now.payloads.now }
        ensures { result ≡ (length (spans_payloads self.now.tree.now self.now.payloads.now spans.now), fold P.joined P.neutral (spans_payloads self.now.tree.now self.now.payloads.now spans.now)) }
    {
        let mut entries = 0;
        let mut payload = P::neutral_payload();
        for span in spans {
            let first = self.table.runs[span.list].first;
            let from = first + span.first;
            let to = first + span.after;
            entries += to - from;
            payload = join_all(&self.payloads[from..to], payload);
        }
        (entries, payload)
    }
}

// Sequences of calls, carried out in their order.
ghost use Rattle.std.specs.Prelude.{◌≡◌, ◌<◌, min, length, slice_set};
ghost use Rattle.index.specs.Held.{machine_of};
ghost use Rattle.index.specs.Machine.{blank, sizes_of};
ghost use Rattle.index.specs.Calls.{answer, after, Counted, outcome_read};
ghost use Rattle.index.specs.Law.{Law};

use crate::Index;
use crate::requests::{Granted, Outcome, Request};
use cascade::row::Row;
use orders::{KeyOrder, Payload};
use shelves::Shelf;

// Writes one place; no other changes.
fn put<T: Copy>(out: &mut [T], at: usize, item: T)
    requires { at < length out.old }
    ensures { out.new ≡ slice_set out.old at item }
{
    out[at] = item;
}

impl<'m, K: KeyOrder, P: Payload> Index<'m, K, P> {
    // Carries one call out.
    pub fn carry_out<S: Shelf<Key = K, Payload = P>>(&mut self, request: &Request<S>) -> Outcome<P>
        ensures answer { outcome_read result ≡ answer K.order P.neutral P.joined S.meaning (sizes_of (machine_of self.old)) (machine_of self.old).register request.now }
        ensures counts { Counted K.order (machine_of self.old).register request.now result }
        ensures after { machine_of self.new ≡ after K.order P.joined S.meaning (machine_of self.old) request.now }
    {
        match request {
            Request::Build(shelf) => {
                self.build(*shelf)?;
                Ok(Granted::Built)
            }
            Request::Clear => {
                self.clear();
                Ok(Granted::Cleared)
            }
            Request::Amend { list, place, by } => {
                self.amend(*list, *place, *by)?;
                Ok(Granted::Amended)
            }
            Request::LookUp { list, key, side } => {
                Ok(Granted::Found(self.look_up(*list, key, *side)?))
            }
            Request::Offer { list, key } => Ok(Granted::Offered(self.offer(*list, key)?)),
            Request::Range { a, b, low, high } => {
                Ok(Granted::Ranged(self.range(*a, *b, low, high)?))
            }
        }
    }

    // Carries calls out in their order, granted or refused, each outcome written at its call's place, until the calls or
    // the places for outcomes end. Returns how many were carried out; the outcomes behind them stay.
    pub fn run<S: Shelf<Key = K, Payload = P>>(
        &mut self,
        requests: &[Request<S>],
        outcomes: &mut [Outcome<P>],
    ) -> usize
        ensures count { result ≡ min (length requests.now) (length outcomes.old) }
        ensures law { Law K.order P.neutral P.joined S.meaning (machine_of self.old) requests.now outcomes.old outcomes.new (machine_of self.new) }
    {
        let count = requests.len().min(outcomes.len());
        self.sound();
        for (i, request) in requests[..count].iter().enumerate() {
            let outcome = self.carry_out(request);
            self.sound();
            put(outcomes, i, outcome);
        }
        count
    }
}

// Sets an index up over lent memory and carries calls out on it.
pub fn serve<'m, S: Shelf>(
    keys: &'m mut [S::Key],
    rows: &'m mut [Row],
    payloads: &'m mut [S::Payload],
    requests: &[Request<S>],
    outcomes: &mut [Outcome<S::Payload>],
) -> Index<'m, S::Key, S::Payload>
    ensures { Law S.Key.order S.Payload.neutral S.Payload.joined S.meaning (blank keys.old rows.old payloads.old) requests.now outcomes.old outcomes.new (machine_of result) }
{
    let mut index = Index::set_up(keys, rows, payloads);
    let _ = index.run(requests, outcomes);
    index
}

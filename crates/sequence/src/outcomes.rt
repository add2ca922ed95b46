// Calls and outcomes in words.
use dated::key::DatedKey;
use index::requests::{Granted, Outcome, Request};
use orders::side::Side;
use register::answers::{Lookup, Span};
use shelves::Shelf;
use std::{fmt, io};
use terms::marks::Marks;

// Prints each call with its outcome below it.
pub fn print_all<S: Shelf<Key = DatedKey, Payload = Marks>>(
    rt: &HostRuntime,
    calls: &[Request<S>],
    outcomes: &[Outcome<Marks>],
) -> io::Result<()> {
    for (call, outcome) in calls.iter().zip(outcomes) {
        let call = CallWords(call);
        let outcome = OutcomeWords(*outcome);
        print!(rt; "{call}\n{outcome}")?;
    }
    Ok(())
}

// A call, on a line.
#[derive(Drop)]
struct CallWords<'c, S: Shelf>(&'c Request<'c, S>);

impl<S: Shelf<Key = DatedKey, Payload = Marks>> fmt::Display for CallWords<'_, S> {
    fn fmt<W: fmt::Write>(&self, f: &mut fmt::Formatter<W>) -> fmt::Result {
        match self.0 {
            Request::Build(shelf) => {
                let lists = shelf.lists();
                write!(f, "build {lists} lists")
            }
            Request::Clear => f.write_str("clear"),
            Request::Amend { list, place, by } => {
                let bits = by.bits;
                write!(f, "amend list {list} place {place} by marks {bits}")
            }
            Request::LookUp { list, key, side } => {
                let day = key.day;
                match side {
                    Side::Low => write!(f, "look up day {day} to list {list}, low side"),
                    Side::High => write!(f, "look up day {day} to list {list}, high side"),
                }
            }
            Request::Offer { list, key } => {
                let day = key.day;
                write!(f, "offer day {day} at list {list}")
            }
            Request::Range { a, b, low, high } => {
                let first = low.day;
                let last = high.day;
                write!(f, "range over slots {a} to {b}, days {first} to {last}")
            }
        }
    }
}

// An outcome, on lines of its own.
#[derive(Clone, Copy)]
struct OutcomeWords(Outcome<Marks>);

impl fmt::Display for OutcomeWords {
    fn fmt<W: fmt::Write>(&self, f: &mut fmt::Formatter<W>) -> fmt::Result {
        match &self.0 {
            Ok(Granted::Built) => writeln!(f, "  built"),
            Ok(Granted::Cleared) => writeln!(f, "  no lists"),
            Ok(Granted::Amended) => writeln!(f, "  amended"),
            Ok(Granted::Found(lookup)) => write_lookup(lookup, f),
            Ok(Granted::Offered(offer)) => {
                write_spans(offer.used_spans(), f)?;
                write_sum(offer.entries, offer.payload, offer.comparisons, f)
            }
            Ok(Granted::Ranged(range)) => {
                write_spans(range.used_spans(), f)?;
                write_sum(range.entries, range.payload, range.comparisons, f)
            }
            Err(fault) => writeln!(f, "  {fault}"),
        }
    }
}

fn write_lookup<W: fmt::Write>(lookup: &Lookup, f: &mut fmt::Formatter<W>) -> fmt::Result {
    for stop in lookup.path() {
        let list = stop.list;
        let place = stop.place;
        writeln!(f, "  list {list}: place {place}")?;
    }
    let comparisons = lookup.comparisons;
    writeln!(f, "  {comparisons} comparisons")
}

fn write_spans<W: fmt::Write>(spans: &[Span], f: &mut fmt::Formatter<W>) -> fmt::Result {
    for span in spans {
        let list = span.list;
        let first = span.first;
        let after = span.after;
        writeln!(f, "  list {list}: from place {first} to before {after}")?;
    }
    Ok(())
}

fn write_sum<W: fmt::Write>(
    entries: usize,
    payload: Marks,
    comparisons: usize,
    f: &mut fmt::Formatter<W>,
) -> fmt::Result {
    let bits = payload.bits;
    writeln!(
        f,
        "  entries: {entries}, marks: {bits}, comparisons: {comparisons}"
    )
}

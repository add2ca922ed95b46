// The answers of an index as tables.
use crate::text::{Counted, MarkWords, Noun};
use register::answers::{Lookup, Offer};
use std::fmt;
use terms::marks::Marks;

// The lists from the root to the end list, with the place of the sought term in each.
#[derive(Clone, Copy)]
pub struct LookupTable<'a>(pub &'a Lookup);

impl fmt::Display for LookupTable<'_> {
    fn fmt<W: fmt::Write>(&self, f: &mut fmt::Formatter<W>) -> fmt::Result {
        f.write_str("  list  place\n")?;
        for stop in self.0.path() {
            let list = stop.list;
            let place = stop.place;
            writeln!(f, "{list:>6}  {place:>5}")?;
        }
        let comparisons = Counted(self.0.comparisons, Noun::Comparison);
        writeln!(f, "{comparisons}")
    }
}

// The lists from the root to the end list, with the places of the offered entries in each; then how many there are, and the
// marks of all of them.
#[derive(Clone, Copy)]
pub struct OfferTable<'a>(pub &'a Offer<Marks>);

impl fmt::Display for OfferTable<'_> {
    fn fmt<W: fmt::Write>(&self, f: &mut fmt::Formatter<W>) -> fmt::Result {
        f.write_str("  list  first  after\n")?;
        for span in self.0.used_spans() {
            let list = span.list;
            let first = span.first;
            let after = span.after;
            writeln!(f, "{list:>6}  {first:>5}  {after:>5}")?;
        }
        let entries = Counted(self.0.entries, Noun::Entry);
        let marks = MarkWords(self.0.payload);
        let comparisons = Counted(self.0.comparisons, Noun::Comparison);
        writeln!(f, "{entries}{marks}\n{comparisons}")
    }
}

// Reading fields, and what their bodies say.
ghost use Rattle.std.specs.Prelude.{◌≡◌, IfSome};
ghost use Rattle.std.specs.Option.{option_map};
ghost use Rattle.faults.specs.Refusals.{fault};
ghost use Rattle.treefiles.specs.Reader.{first_field, ended, lists, entries, closes};
ghost use Rattle.treefiles.specs.Steps.{field_read, items_read, sized};

use crate::field::Field;
use crate::item::Item;
use crate::stage::Stage;
use faults::{Fault, Reason};
use orders::entry::Entry;
use terms::key::{LONGEST, Term};
use terms::marks::Marks;

impl<'f> Field<'f> {
    // The field that the bytes begin with, nothing where they do not hold it whole; they begin at the offset `at`.
    pub fn first(at: usize, bytes: &'f [u8]) -> Option<Field<'f>>
        ensures read { option_map field_read result ≡ first_field bytes.now }
        ensures begins { IfSome result (λ f. f.at ≡ at) }
    {
        let [tag, high, low, rest @ ..] = bytes else {
            return None;
        };
        let len = usize::from(u16::from_be_bytes([*high, *low]));
        let body = rest.get(..len)?;
        Some(Field {
            at,
            tag: *tag,
            body,
        })
    }

    // The refusal of the field for a reason: it names the field's offset.
    pub fn refusal(self, reason: Reason) -> Fault
        ensures { result ≡ fault reason self.entry.at 0 }
    {
        Fault::new(reason, self.at, 0)
    }

    // The parent of a list; that of the first list is 0.
    pub fn list(self, stage: Stage) -> Result<Item, Fault>
        ensures { items_read result ≡ sized stage 0 self.entry.at lists self.entry.body.now }
    {
        let [parent] = self.body else {
            return Err(self.refusal(Reason::FieldLength));
        };
        if stage == Stage::Opening && *parent != 0 {
            return Err(self.refusal(Reason::FieldNumber));
        }
        Ok(Item::List(usize::from(*parent)))
    }

    // The marks and the term of an entry. A refusal of the term names the field's offset as its second place.
    pub fn entry(self) -> Result<Item, Fault>
        ensures { items_read result ≡ sized (Stage.Opening) 0 self.entry.at entries self.entry.body.now }
    {
        match self.body.split_first_chunk() {
            Some((marks, text)) if !text.is_empty() && text.len() <= LONGEST => {
                let key = Term::new(text).map_err(|fault| fault.with_second(self.at))?;
                let bits = u32::from_be_bytes(*marks);
                Ok(Item::Entry(Entry {
                    key,
                    payload: Marks { bits },
                }))
            }
            _ => Err(self.refusal(Reason::FieldLength)),
        }
    }

    // The closing field holds the number of entries before it.
    pub fn closing(self, count: usize) -> Result<Item, Fault>
        ensures { items_read result ≡ sized (Stage.Opening) count self.entry.at closes self.entry.body.now }
    {
        let Some(number) = self.body.as_array() else {
            return Err(self.refusal(Reason::FieldLength));
        };
        if usize::try_from(u32::from_be_bytes(*number)) != Ok(count) {
            return Err(self.refusal(Reason::FieldNumber));
        }
        Ok(Item::Closing)
    }
}

impl Stage {
    // Whether a file has ended: its closing field was read, and no byte is left.
    pub fn has_ended(self, rest: &[u8]) -> bool
        ensures { result ≡ ended self rest.now }
    {
        self == Stage::Closing && rest.is_empty()
    }
}

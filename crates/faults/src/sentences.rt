// Refusals as sentences, for a reader who does not know the numbers.
ghost use Rattle.std.specs.Prelude.{Some};
ghost use Rattle.faults.specs.Places.{in_field};
ghost use Rattle.faults.specs.Sentences.{layer_name, rule_of, places_of, sentence};

use crate::{Fault, Layer, Reason};
use std::fmt;

impl fmt::Display for Layer {
    ghost output = { λ l. Some (layer_name l) };

    fn fmt<W: fmt::Write>(&self, f: &mut fmt::Formatter<W>) -> fmt::Result {
        f.write_str(match self {
            Layer::Key => "key",
            Layer::File => "file",
            Layer::Index => "index",
            Layer::Job => "job",
        })
    }
}

// The rule that was broken.
impl fmt::Display for Reason {
    ghost output = { λ r. Some (rule_of r) };

    fn fmt<W: fmt::Write>(&self, f: &mut fmt::Formatter<W>) -> fmt::Result {
        f.write_str(match self {
            Reason::KeyLength => "a term has 1 to 32 bytes",
            Reason::KeyZeroByte => "a term holds no zero byte",
            Reason::SlotAboveLimit => "a slot is at most 63",
            Reason::ListCount => "there are 1 to 128 lists",
            Reason::ParentNotSmaller => "a list has a smaller number than its children",
            Reason::TooDeep => "a list lies at most 8 edges below the root",
            Reason::TooManyChildren => "a list has at most four children",
            Reason::TooManyEntries => "there are at most 40,000 entries",
            Reason::KeyOutOfOrder => "a key is not below the one before it in its list",
            Reason::IndexMemoryShort => "index memory is too small",
            Reason::NoSuchList => "there is no such list",
            Reason::NoSuchPlace => "there is no such place",
            Reason::NotSieved => "the lists are not those of a sieve",
            Reason::SlotLimits => "slots run from a smaller to a larger, which is at most 63",
            Reason::KeyLimits => "the low key is above the high key",
            Reason::FileOpening => "this does not open as a tree file",
            Reason::FieldIncomplete => "there is no complete field",
            Reason::FieldNotAllowed => "this field may not come here",
            Reason::FieldLength => "the length does not suit this field",
            Reason::FieldNumber => "the number in this field is wrong",
            Reason::LoadMemoryShort => "the memory to load into is too small",
            Reason::SheetTooLong => "a sheet has at most 65,535 bytes",
        })
    }
}

// Where the rule was broken: what the two places of a refusal count, by its reason.
#[derive(Clone, Copy)]
struct Places(Fault);

impl fmt::Display for Places {
    ghost output = { λ p. Some (places_of p.0.reason p.0.first p.0.second) };

    fn fmt<W: fmt::Write>(&self, f: &mut fmt::Formatter<W>) -> fmt::Result {
        let Fault {
            reason,
            first,
            second,
            ..
        } = self.0;
        match reason {
            Reason::KeyLength => write!(f, ", not {first}{}", InField(second)),
            Reason::KeyZeroByte => write!(
                f,
                ", as this one at its place {first}{}",
                InField(second)
            ),
            Reason::SlotAboveLimit => write!(f, ", not as that of point {first}"),
            Reason::ListCount | Reason::SheetTooLong => write!(f, ", not {first}"),
            Reason::ParentNotSmaller => write!(f, ", not as list {first} with the parent {second}"),
            Reason::TooDeep => write!(f, ", not as list {first}"),
            Reason::TooManyChildren => write!(f, ", too many with list {first}"),
            Reason::TooManyEntries => write!(f, ", passed in list {first}"),
            Reason::KeyOutOfOrder => write!(f, ", not as in list {first} at place {second}"),
            Reason::IndexMemoryShort => match first {
                1 => write!(f, " for the keys, which take {second}"),
                2 => write!(f, " for the rows, which take {second}"),
                _ => write!(f, " for the payloads, which take {second}"),
            },
            Reason::NoSuchList => write!(f, ": list {first}"),
            Reason::NoSuchPlace => write!(f, ": list {first}, place {second}"),
            Reason::NotSieved | Reason::KeyLimits => Ok(()),
            Reason::SlotLimits => write!(f, ", not from {first} to {second}"),
            Reason::LoadMemoryShort => match first {
                1 => write!(f, " for the lists, which take {second}"),
                _ => write!(f, " for the entries, which take {second}"),
            },
            _ => write!(f, ", at byte {first}"),
        }
    }
}

// The field of a file in which a key was refused, by its byte; 0 stands for none, since five bytes open a file.
#[derive(Clone, Copy)]
struct InField(usize);

impl fmt::Display for InField {
    ghost output = { λ i. Some (in_field i.0) };

    fn fmt<W: fmt::Write>(&self, f: &mut fmt::Formatter<W>) -> fmt::Result {
        match self.0 {
            0 => Ok(()),
            at => write!(f, ", in the field at byte {at}"),
        }
    }
}

// As "refused (18, file): this field may not come here, at byte 37".
impl fmt::Display for Fault {
    ghost output = { λ f. Some (sentence f) };

    fn fmt<W: fmt::Write>(&self, f: &mut fmt::Formatter<W>) -> fmt::Result {
        let Fault { reason, layer, .. } = self;
        let number = reason.number();
        write!(f, "refused ({number}, {layer}): {reason}{}", Places(*self))
    }
}

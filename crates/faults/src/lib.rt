// Refusals: why a call was refused, by which layer, and where.
#![tactic(auto)]

ghost use Rattle.std.specs.Prelude.{◌≡◌};
ghost use Rattle.faults.specs.Refusals.{number_of, layer_of, fault, with_second};

pub mod sentences;

// Why a call was refused. The numbers are those that users of the product know.
#[derive(Clone, Copy, PartialEq, Eq, Debug)]
pub enum Reason {
    KeyLength = 1,
    KeyZeroByte = 2,
    SlotAboveLimit = 3,
    ListCount = 4,
    ParentNotSmaller = 5,
    TooDeep = 6,
    TooManyChildren = 7,
    TooManyEntries = 8,
    KeyOutOfOrder = 9,
    IndexMemoryShort = 10,
    NoSuchList = 11,
    NoSuchPlace = 12,
    NotSieved = 13,
    SlotLimits = 14,
    KeyLimits = 15,
    FileOpening = 16,
    FieldIncomplete = 17,
    FieldNotAllowed = 18,
    FieldLength = 19,
    FieldNumber = 20,
    LoadMemoryShort = 21,
    SheetTooLong = 22,
}

// The part of the product that refuses.
#[derive(Clone, Copy, PartialEq, Eq, Debug)]
pub enum Layer {
    Key,
    File,
    Index,
    Job,
}

// A refusal: its reason, the layer it comes from, and two places. What they count depends on the reason; a place
// that the reason does not name is 0.
#[derive(Clone, Copy, PartialEq, Eq, Debug)]
pub struct Fault {
    pub reason: Reason,
    pub layer: Layer,
    pub first: usize,
    pub second: usize,
}

impl Reason {
    // The number by which users know the refusal.
    pub fn number(self) -> u32
        ensures { result ≡ number_of self }
    {
        self as u32
    }

    // The layer that refuses for this reason.
    pub fn layer(self) -> Layer
        ensures { result ≡ layer_of self }
    {
        match self {
            Reason::KeyLength | Reason::KeyZeroByte => Layer::Key,
            Reason::FileOpening
            | Reason::FieldIncomplete
            | Reason::FieldNotAllowed
            | Reason::FieldLength
            | Reason::FieldNumber
            | Reason::LoadMemoryShort => Layer::File,
            Reason::SheetTooLong => Layer::Job,
            _ => Layer::Index,
        }
    }
}

impl Fault {
    // A refusal of the reason's own layer.
    pub fn new(reason: Reason, first: usize, second: usize) -> Fault
        ensures { result ≡ fault reason first second }
    {
        Fault {
            reason,
            layer: reason.layer(),
            first,
            second,
        }
    }

    // The same refusal with its second place filled.
    pub fn with_second(self, second: usize) -> Fault
        ensures { result ≡ with_second self second }
    {
        Fault { second, ..self }
    }
}

// Marks of an entry.
ghost use Rattle.std.specs.Prelude.{◌≡◌, refl};
ghost use Rattle.terms.specs.Unions.{no_marks, union_of_marks, has};
ghost use Rattle.std.proofs.lemmas.Nat.{or_comm};
ghost use Rattle.terms.specs.Ors.{or_assoc};

use orders::Payload;

// A set of 32 bits.
#[derive(Clone, Copy, PartialEq, Eq, Default, Debug)]
pub struct Marks {
    pub bits: u32,
}

impl Marks {
    // The term was withdrawn and must not be offered.
    pub const WITHDRAWN: u32 = 1;

    // A client has banned the term.
    pub const BANNED: u32 = 2;

    // The term is preferred to others of its meaning.
    pub const PREFERRED: u32 = 4;

    // Whether the set has a bit, or one of several.
    pub fn has(self, bit: u32) -> bool
        ensures { result ≡ has self bit }
    {
        self.bits & bit != 0
    }
}

// Union, with the empty set neutral.
impl Payload for Marks {
    ghost neutral = { no_marks };

    ghost joined = { union_of_marks };

    ghost lawful = { record {
      assoc = λ a b c i. record { bits = or_assoc a.bits b.bits c.bits i };
      comm = λ a b i. record { bits = or_comm a.bits b.bits i };
      unit = λ a. refl;
    } };

    fn neutral_payload() -> Marks {
        Marks { bits: 0 }
    }

    fn join(self, other: Marks) -> Marks {
        Marks {
            bits: self.bits | other.bits,
        }
    }
}

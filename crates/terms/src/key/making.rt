// Making a term key from a text, and reading its text.
ghost use Rattle.std.specs.Prelude.{◌≡◌, ◌↔◌, IsTrue};
ghost use Rattle.terms.specs.Keys.{Makes, first_zero, text_of, EqualByText};

use crate::key::{LONGEST, Term};
use faults::{Fault, Reason};

// The place of the first zero byte.
fn first_zero(text: &[u8]) -> Option<usize>
    ensures { result ≡ first_zero text.now }
{
    text.iter().position(|b| *b == 0)
}

impl Term {
    // The key of a text, or the refusal: a text that has not 1 to 32 bytes, then one with a zero byte.
    pub fn new(text: &[u8]) -> Result<Term, Fault>
        ensures { Makes text.now result }
    {
        let len = text.len();
        if !(1..=LONGEST).contains(&len) {
            return Err(Fault::new(Reason::KeyLength, len, 0));
        }
        if let Some(i) = first_zero(text) {
            return Err(Fault::new(Reason::KeyZeroByte, i, 0));
        }
        let mut bytes = [0; LONGEST];
        bytes[..len].copy_from_slice(text);
        Ok(Term {
            bytes,
            len: len as u8,
        })
    }

    // The text of the key.
    pub fn text(&self) -> &[u8]
        ensures { result.now ≡ text_of self.now }
    {
        &self.bytes[..usize::from(self.len)]
    }
}

// Two keys are equal exactly where their texts are, so keys made from different texts differ.
pub fn equal_by_text()
    ensures { EqualByText }
{}

// `==` compares what is stored, and so the texts.
pub fn are_equal(a: &Term, b: &Term) -> bool
    ensures { IsTrue result ↔ (text_of a.now ≡ text_of b.now) }
{
    a == b
}

// The stored form of a term key.
ghost use Rattle.std.specs.Prelude.{◌≡◌, ℕ, ◌<◌, ◌≤◌, length, slice_index};
ghost use Rattle.terms.specs.declared.key.TheConstants.{LONGEST};

pub mod making;
pub mod order;

// How many bytes a term key has at the most.
pub const LONGEST: usize = 32;

// A term key: a text of 1 to 32 bytes, none of them zero, with zeros behind it up to 32.
#[derive(Clone, Copy, PartialEq, Eq, Debug)]
pub struct Term {
    bytes: [u8; LONGEST],
    len: u8,
    ghost sized: { length bytes ≡ LONGEST },
    ghost some: { 1 ≤ len },
    ghost short: { len ≤ LONGEST },
    ghost full: { (k : ℕ) → k < len → 0 < slice_index bytes k },
    ghost rest: { (k : ℕ) → len ≤ k → slice_index bytes k ≡ 0 },
}

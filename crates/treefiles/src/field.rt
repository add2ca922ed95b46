// A field of a tree file: the offset at which it begins, a tag byte, a length in two bytes, the high byte first, and
// as many bytes of body.
#[derive(Clone, Copy)]
pub struct Field<'f> {
    pub at: usize,
    pub tag: u8,
    pub body: &'f [u8],
}

// How many bytes stand before the body.
pub const BEFORE_BODY: usize = 3;

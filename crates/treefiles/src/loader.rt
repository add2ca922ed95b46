// A loader: how far a tree file has been read.
ghost use Rattle.std.specs.Prelude.{◌+◌, ◌<◌, ◌≤◌, length};

use crate::loaded::Loaded;
use crate::stage::Stage;

pub mod reading;

// The state of reading `file`: the offset of the next field, what was read last, and how many lists and entries
// there were.
#[derive(Drop)]
pub struct Loader<'f> {
    file: &'f [u8],
    at: usize,
    stage: Stage,
    loaded: Loaded,
    ghost within: { at ≤ length file.now },
    ghost few: { loaded.lists + loaded.entries < at },
}

// Reading the lent memory: while an index lives, the server sees its memory only through it.
ghost use Rattle.std.specs.Prelude.{◌≡◌};
ghost use Rattle.index.specs.Held.{machine_of};

use crate::Index;
use cascade::row::Row;
use orders::{KeyOrder, Payload};

impl<'m, K: KeyOrder, P: Payload> Index<'m, K, P> {
    // The whole key memory, as it is.
    pub fn keys(&self) -> &[K]
        ensures { result.now ≡ (machine_of self.now).keys }
    {
        &self.memory.keys[..]
    }

    // The whole row memory, as it is.
    pub fn rows(&self) -> &[Row]
        ensures { result.now ≡ (machine_of self.now).rows }
    {
        &self.memory.rows[..]
    }

    // The whole payload memory, as it is.
    pub fn payloads(&self) -> &[P]
        ensures { result.now ≡ (machine_of self.now).payloads }
    {
        &self.memory.payloads[..]
    }
}

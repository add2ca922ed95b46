// Reading a tree file field by field.
ghost use Rattle.std.specs.Prelude.{◌≡◌, ◌+◌, ◌≤◌, length};
ghost use Rattle.treefiles.specs.Steps.{TakesField, Reads, Opens, Begun, counts_of};

use crate::field::{BEFORE_BODY, Field};
use crate::item::Item;
use crate::loaded::Loaded;
use crate::loader::Loader;
use crate::stage::Stage;
use faults::{Fault, Reason};

// The five bytes that open a tree file: the field V, which holds the version of the format.
const HEAD: &[u8; 5] = b"\x56\x00\x02\x00\x01";

// Whether the file opens as a tree file does.
pub fn check_opening(file: &[u8]) -> Result<(), Fault>
    ensures { Opens file.now result }
{
    if !file.starts_with(HEAD) {
        return Err(Fault::new(Reason::FileOpening, 0, 0));
    }
    Ok(())
}

impl<'f> Loader<'f> {
    // A loader behind the opening of the file.
    pub fn new(file: &'f [u8]) -> Loader<'f>
        requires { 5 ≤ length file.now }
        ensures { Begun file.now result }
    {
        Loader {
            file,
            at: HEAD.len(),
            stage: Stage::Opening,
            loaded: Loaded {
                lists: 0,
                entries: 0,
            },
        }
    }

    // How many lists and entries were read.
    pub fn loaded(&self) -> Loaded
        ensures { result ≡ counts_of self.now }
    {
        self.loaded
    }

    // What the next field says, nothing at the end of the file, or the refusal. Only a field that is taken moves
    // the loader.
    pub fn next(&mut self) -> Result<Option<Item>, Fault>
        ensures { Reads self.old self.new result }
    {
        let rest = &self.file[self.at..];
        if self.stage.has_ended(rest) {
            return Ok(None);
        }
        let Some(field) = Field::first(self.at, rest) else {
            return Err(Fault::new(Reason::FieldIncomplete, self.at, 0));
        };
        Ok(Some(self.take(field)?))
    }

    // Takes a field: may its tag come now, does its length suit the tag, is what it says right.
    fn take(&mut self, field: Field) -> Result<Item, Fault>
        requires within { self.old.at + (3 + length field.body.now) ≤ length self.old.file.now }
        requires begins { field.at ≡ self.old.at }
        ensures { TakesField self.old self.new field.entry.tag field.entry.body.now result }
    {
        let item = match (self.stage, char::from(field.tag)) {
            (Stage::Opening | Stage::List | Stage::Entry, 'L') => field.list(self.stage)?,
            (Stage::List | Stage::Entry, 'E') => field.entry()?,
            (Stage::List | Stage::Entry, 'Z') => field.closing(self.loaded.entries)?,
            _ => return Err(field.refusal(Reason::FieldNotAllowed)),
        };
        self.at += BEFORE_BODY + field.body.len();
        match item {
            Item::List(_) => {
                self.loaded.lists += 1;
                self.stage = Stage::List;
            }
            Item::Entry(_) => {
                self.loaded.entries += 1;
                self.stage = Stage::Entry;
            }
            Item::Closing => self.stage = Stage::Closing,
        }
        Ok(item)
    }
}

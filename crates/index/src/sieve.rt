// Whether the lists of an index are those of the sieve.
ghost use Rattle.std.specs.Prelude.{Decides};
ghost use Rattle.index.specs.Sieve.{SieveTable};

use plan::table::ListTable;
use shelves::slots::{SIEVE_LISTS, parent_of};

// Whether there are as many lists as the sieve has, with its parents.
pub(crate) fn is_sieve(table: &ListTable) -> bool
    ensures { Decides result (SieveTable table.now) }
{
    if table.len != SIEVE_LISTS {
        return false;
    }
    for (list, run) in table.lists().iter().enumerate() {
        if list > 0 && run.parent != parent_of(list) {
            return false;
        }
    }
    true
}

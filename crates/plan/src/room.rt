// Room for the lists of a table in the three memories.
ghost use Rattle.std.specs.Prelude.{◌≡◌};
ghost use Rattle.register.specs.Questions.{unless};
ghost use Rattle.plan.specs.Room.{no_table, Countable, number_of, room_fault, table_fault};

use crate::questions::ask;
use crate::table::{ListTable, NO_RUN};
use faults::{Fault, Reason};
use register::limits::MOST_LISTS;

// The memories of an index. A refusal names them by their numbers.
#[derive(Clone, Copy)]
enum Memory {
    Keys = 1,
    Rows = 2,
    Payloads = 3,
}

// Has a memory as many places as are needed?
fn ask_room(memory: Memory, needed: usize, places: usize) -> Result<(), Fault>
    ensures { result ≡ unless (room_fault (number_of memory) needed places) tt }
{
    ask(
        needed <= places,
        Fault::new(Reason::IndexMemoryShort, memory as usize, needed),
    )
}

impl ListTable {
    // The table of no lists.
    pub fn empty() -> ListTable
        ensures { result ≡ no_table }
    {
        ListTable {
            len: 0,
            runs: [NO_RUN; MOST_LISTS],
        }
    }

    // Have memories of these sizes room for the lists?
    pub fn ask_memory(&self, keys: usize, rows: usize, payloads: usize) -> Result<(), Fault>
        requires { Countable self.now }
        ensures { result ≡ unless (table_fault self.now (record { keys = keys; rows = rows; payloads = payloads })) tt }
    {
        let last = self.runs[self.len - 1];
        let taken = last.start + last.length;
        ask_room(Memory::Keys, taken, keys)?;
        ask_room(Memory::Rows, taken + self.len, rows)?;
        ask_room(Memory::Payloads, last.first + last.count, payloads)
    }
}

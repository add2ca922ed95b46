// Planning an index: the questions before a build, and the table of the runs that its lists take in memory.
#![tactic(auto)]

ghost use Rattle.layout.specs.KeyTrees.{key_tree};
ghost use Rattle.plan.specs.Lists.{Measures};
ghost use Rattle.plan.specs.Table.{Plans};

use faults::Fault;
use lists::Lists;
use questions::ask_order;
use shelves::Shelf;
use table::ListTable;

mod lists;
mod questions;
mod room;
pub mod table;

// Asks every question about the lists of a shelf besides the order of their keys, and gives the lists with their numbers.
fn measure<S: Shelf>(shelf: &S) -> Result<Lists, Fault>
    ensures { Measures (key_tree (S.meaning shelf.now)) result }
{
    let lists = Lists::read(shelf)?;
    lists.ask_depths()?;
    let numbered = lists.numbered()?;
    let counted = numbered.counted(shelf);
    counted.ask_entries()?;
    Ok(counted)
}

// Asks every question about the lists of a shelf, and gives the table of the runs that they take in memory.
pub fn plan<S: Shelf>(shelf: &S) -> Result<ListTable, Fault>
    ensures { Plans S.Key.order (key_tree (S.meaning shelf.now)) result }
{
    let lists = measure(shelf)?;
    ask_order(shelf, lists.len)?;
    let sampled = lists.sampled();
    Ok(sampled.table())
}

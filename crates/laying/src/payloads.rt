// Laying payloads down: one list after the other, from the start of payload memory.
ghost use Rattle.std.specs.Prelude.{◌≡◌, ◌≤◌, ◌++◌, length, drop};
ghost use Rattle.cascade.specs.Trees.{all_keys, augmented_lists};
ghost use Rattle.layout.specs.KeyTrees.{key_tree};
ghost use Rattle.register.specs.Limits.{most_lists};
ghost use Rattle.register.specs.Memory.{payloads_laid};
ghost use Rattle.plan.specs.Table.{Tabled};
ghost use Rattle.laying.specs.Laying.{payloads_at};

use plan::table::ListTable;
use shelves::Shelf;

// Lays the payloads of all lists down.
pub fn lay_payloads<S: Shelf>(shelf: &S, table: &ListTable, payloads: &mut [S::Payload])
    requires tabled { Tabled (key_tree (S.meaning shelf.now)) (augmented_lists S.Key.order (key_tree (S.meaning shelf.now))) table.now }
    requires few { table.now.len ≤ most_lists }
    requires room { all_keys (key_tree (S.meaning shelf.now)) ≤ length payloads.old }
    ensures { payloads.new ≡ payloads_laid (S.meaning shelf.now) ++ drop (all_keys (key_tree (S.meaning shelf.now))) payloads.old }
{
    for (list, run) in table.runs[..table.len].iter().enumerate() {
        lay_list_payloads(shelf, list, &mut payloads[run.first..run.first + run.count]);
    }
}

// Writes the payloads of one list.
fn lay_list_payloads<S: Shelf>(shelf: &S, list: usize, payloads: &mut [S::Payload])
    requires { length payloads.old ≡ length (payloads_at (S.meaning shelf.now) list) }
    ensures { payloads.new ≡ payloads_at (S.meaning shelf.now) list }
{
    for (place, payload) in payloads.iter_mut().enumerate() {
        *payload = shelf.entry(list, place).unwrap().payload;
    }
}

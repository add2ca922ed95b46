// The questions about the lists of a shelf. The first "no" is the refusal.
ghost use Rattle.std.specs.Prelude.{◌≡◌, length};
ghost use Rattle.std.specs.Option.{option_map};
ghost use Rattle.std.specs.Ordering.{is_lt};
ghost use Rattle.faults.specs.Refusals.{fault};
ghost use Rattle.faults.specs.declared.Reason.TheVariants.{KeyOutOfOrder};
ghost use Rattle.cascade.specs.Trees.{keys_at};
ghost use Rattle.layout.specs.KeyTrees.{key_tree};
ghost use Rattle.register.specs.Questions.{ask, unless, descent, order_fault};
ghost use Rattle.plan.specs.Columns.{count_asked, parents_asked, parent_in};

use crate::table::ListRun;
use faults::{Fault, Reason};
use orders::KeyOrder;
use register::limits::MOST_LISTS;
use shelves::Shelf;

// Is it so? No: the refusal.
pub fn ask(granted: bool, refusal: Fault) -> Result<(), Fault>
    ensures { result ≡ unless (ask granted refusal) tt }
{
    granted.then_some(()).ok_or(refusal)
}

// Is the number of lists 1 to 128?
pub fn ask_count(lists: usize) -> Result<(), Fault>
    ensures { result ≡ unless (count_asked lists) tt }
{
    ask(
        1 <= lists && lists <= MOST_LISTS,
        Fault::new(Reason::ListCount, lists, 0),
    )
}

// Is each list's parent smaller?
pub fn ask_parents(lists: &[ListRun]) -> Result<(), Fault>
    ensures { result ≡ unless (parents_asked (length lists.now) (parent_in lists.now)) tt }
{
    for (v, list) in lists.iter().enumerate().skip(1) {
        ask(
            list.parent < v,
            Fault::new(Reason::ParentNotSmaller, v, list.parent),
        )?;
    }
    Ok(())
}

// Whether a key is below another.
fn is_below<K: KeyOrder>(key: &K, other: &K) -> bool
    ensures { result ≡ is_lt (K.order key.now other.now) }
{
    key.compare(other).is_lt()
}

// Is every key of a list not below the one before it?
fn ask_list_order<S: Shelf>(shelf: &S, list: usize) -> Result<(), Fault>
    ensures { result ≡ unless (option_map (λ p. fault KeyOutOfOrder list p) (descent S.Key.order (keys_at (key_tree (S.meaning shelf.now)) list))) tt }
{
    let Some(first) = shelf.entry(list, 0) else {
        return Ok(());
    };
    let mut before = first.key;
    // By number: a shelf answers questions, and has no slice to go over.
    for place in 1..shelf.count(list) {
        if let Some(entry) = shelf.entry(list, place) {
            if is_below(&entry.key, &before) {
                return Err(Fault::new(Reason::KeyOutOfOrder, list, place));
            }
            before = entry.key;
        }
    }
    Ok(())
}

// Is every list in order?
pub fn ask_order<S: Shelf>(shelf: &S, len: usize) -> Result<(), Fault>
    requires { len ≡ length (S.meaning shelf.now) }
    ensures { result ≡ unless (order_fault S.Key.order (key_tree (S.meaning shelf.now))) tt }
{
    // By number, as a shelf is asked.
    for v in 0..len {
        ask_list_order(shelf, v)?;
    }
    Ok(())
}

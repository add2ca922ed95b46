// The index: lists with their bridges, kept in memory that the server lends.
#![tactic(auto)]

ghost use Rattle.std.specs.Prelude.{◌≡◌, ℕ, ◌+◌, ◌<◌, ◌≤◌, length, take, sum_by};
ghost use Rattle.cascade.specs.Trees.{parent_of, ordinal, depth_of, all_keys};
ghost use Rattle.plan.specs.Table.{runs_of};
ghost use Rattle.register.specs.Memory.{keys_laid, rows_laid};

use cascade::row::Row;
use layout::Layout;
use orders::{KeyOrder, Payload};
use plan::table::ListTable;

pub mod calls;
mod laid;
mod payloads;
pub mod readers;
pub mod requests;
pub mod run;
mod sieve;

// The memory that the server lends: for keys, for rows and for payloads.
#[derive(Drop)]
pub struct Memory<'m, K, P> {
    keys: &'m mut [K],
    rows: &'m mut [Row],
    payloads: &'m mut [P],
}

// Lists laid down in memory, with their table and the layout that says whose augmented lists they are. What every index
// keeps stands in its type: each parent is smaller than its child, no list is more than 8 edges deep or more than its
// parent's fourth child, runs follow one another inside the memory, and the memory in use is what build lays down.
#[derive(Drop)]
pub struct Index<'m, K: KeyOrder, P> {
    memory: Memory<'m, K, P>,
    table: ListTable,
    layout: Layout<K>,
    ghost few: { length layout.tree ≤ 128 },
    ghost smaller: { (v : ℕ) → 0 < v → v < length layout.tree → parent_of layout.tree v < v },
    ghost shallow: { (v : ℕ) → v < length layout.tree → depth_of layout.tree v ≤ 8 },
    ghost narrow: { (v : ℕ) → v < length layout.tree → ordinal layout.tree v < 4 },
    ghost small: { all_keys layout.tree ≤ 40000 },
    ghost lists: { table.len ≡ length layout.tree },
    ghost runs: { ∥ take table.len table.runs ≡ runs_of layout.tree layout.augmented ∥₁ },
    ghost keyed: { take (sum_by length layout.augmented) memory.keys.now ≡ keys_laid layout.augmented },
    ghost rowed: { ∥ take (sum_by length layout.augmented + length layout.tree) memory.rows.now ≡ rows_laid layout.augmented ∥₁ },
    ghost loaded: { all_keys layout.tree ≤ length memory.payloads.now },
}

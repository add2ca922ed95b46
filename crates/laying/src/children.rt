// The children of a list.
ghost use Rattle.std.specs.Prelude.{◌<◌, length, map};
ghost use Rattle.laying.specs.Children.{Ordinals, RunsBehind, ChildKeys};

use plan::table::ListTable;
use register::limits::MOST_CHILDREN;

// The keys of a list's children, by ordinal, none where there is no child; key memory from `end` on is `behind`. It is
// one pass over the table, which has at most 128 lists.
pub fn children_of<'a, K>(
    table: &ListTable,
    list: usize,
    behind: &'a [K],
    end: usize,
) -> [&'a [K]; MOST_CHILDREN]
    requires ordinals { Ordinals table.now.runs table.now.len }
    requires inside { list < table.now.len }
    requires behind { RunsBehind table.now.runs table.now.len list end (length behind.now) }
    ensures { ChildKeys table.now.runs table.now.len list end behind.now (map (λ keys. keys.now) result) }
{
    let mut children = [&behind[..0]; MOST_CHILDREN];
    // The root is nobody's child.
    for run in &table.runs[1..table.len] {
        if run.parent == list {
            let from = run.start - end;
            children[run.ordinal] = &behind[from..from + run.length];
        }
    }
    children
}

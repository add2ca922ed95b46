// How deep a list lies in a tree.
ghost use Rattle.std.specs.Prelude.{◌≡◌};
ghost use Rattle.galdrisco.specs.Depths.{depth_of};

use shelves::rows::ListRow;

// The number of steps from a list to the root, by parents. Nothing where a list on the way does not exist or has no
// smaller parent: the parents of a loaded file can be any bytes.
pub fn depth(lists: &[ListRow], list: usize) -> Option<usize>
    ensures { result ≡ depth_of lists.now list }
{
    let mut at = list;
    let mut steps = 0;
    // By parents, which stand in no order that a slice has.
    while at != 0 {
        let parent = lists.get(at)?.parent;
        if parent >= at {
            return None;
        }
        at = parent;
        steps += 1;
    }
    Some(steps)
}

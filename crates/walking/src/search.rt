// The two searches of a list of keys for the first place that is not passed.
ghost use Rattle.std.specs.Prelude.{◌≡◌};
ghost use Rattle.orders.specs.Places.{passed};
ghost use Rattle.cascade.specs.Searches.{root_search, edge_step};
ghost use Rattle.walking.specs.Reached.{arrived};

use orders::KeyOrder;
use orders::side::Side;
use register::limits::SAMPLE_STEP;

// How many keys lie between two samples.
const MOST_STEPS: usize = SAMPLE_STEP - 1;

// A place, and how many keys were compared to find it.
#[derive(Clone, Copy, PartialEq, Eq, Default, Debug)]
pub struct Arrival {
    pub place: usize,
    pub comparisons: usize,
}

// Whether a key is passed on the way to a sought key.
fn is_passed<K: KeyOrder>(key: &K, sought: &K, side: Side) -> bool
    ensures { result ≡ passed K.order side sought.now key.now }
{
    let order = key.compare(sought);
    match side {
        Side::Low => order.is_lt(),
        Side::High => order.is_le(),
    }
}

// The root search, by halving. The library's binary search does not say how many keys it compares.
pub fn root_search<K: KeyOrder>(keys: &[K], sought: &K, side: Side) -> Arrival
    ensures { result ≡ arrived (root_search (passed K.order side sought.now) keys.now) }
{
    let mut lo = 0;
    let mut hi = keys.len();
    let mut comparisons = 0;
    while lo < hi {
        let mid = lo + (hi - lo) / 2;
        comparisons += 1;
        if is_passed(&keys[mid], sought, side) {
            lo = mid + 1;
        } else {
            hi = mid;
        }
    }
    Arrival {
        place: lo,
        comparisons,
    }
}

// The step along an edge: `samples` of the list's samples are passed, so the place is at most three keys behind them.
pub fn edge_step<K: KeyOrder>(keys: &[K], samples: u32, sought: &K, side: Side) -> Arrival
    ensures { result ≡ arrived (edge_step (passed K.order side sought.now) samples keys.now) }
{
    let from = SAMPLE_STEP * samples as usize;
    // The keys in reach, none where `from` is past the end.
    let near = &keys[from.min(keys.len())..(from + MOST_STEPS).min(keys.len())];
    for (n, key) in near.iter().enumerate() {
        if !is_passed(key, sought, side) {
            return Arrival {
                place: from + n,
                comparisons: n + 1,
            };
        }
    }
    Arrival {
        place: from + near.len(),
        comparisons: near.len(),
    }
}

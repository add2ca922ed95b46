// The mathematics of cascaded lists: trees of key lists with their augmented lists, searches in them, and the sieve's tree.
// Each theorem is the contract of a function.
#![tactic(auto)]

ghost use Rattle.cascade.specs.Theorems.{Lengths, Space, Ordered, Defined, RootSearch, EdgeWithin, OwnPlace, LookupWithin};
ghost use Rattle.cascade.specs.SlotTheorems.{FewChosen, FewVisited, SlotsOnce, FromParent, RangeWithin, SpansCounted, Rectangle, RectangleOfLists};
ghost use Rattle.cascade.specs.Cases.{CasesHold};

pub mod row;

// How long each augmented list is.
pub fn lengths<K>()
    ensures { Lengths K }
{}

// All augmented lists take at most four elements for three keys.
pub fn space<K>()
    ensures { Space K }
{}

// Every augmented list is in order.
pub fn ordered<K>()
    ensures { Ordered K }
{}

// An augmented list is the one list that its definition in words describes.
pub fn defined<K>()
    ensures { Defined K }
{}

// The root search.
pub fn root_search<K>()
    ensures { RootSearch K }
{}

// The step along an edge.
pub fn edge_within<K>()
    ensures { EdgeWithin K 3 }
{}

// From an augmented place to the place in the list.
pub fn own_place<K>()
    ensures { OwnPlace K }
{}

// A whole lookup.
pub fn lookup_within<K>()
    ensures { LookupWithin K 3 }
{}

// How many lists of the sieve's tree a range of slots chooses.
pub fn few_chosen()
    ensures { FewChosen 10 }
{}

// And how many it visits besides the root.
pub fn few_visited()
    ensures { FewVisited 20 }
{}

// The chosen lists part the slots of the range.
pub fn slots_once()
    ensures { SlotsOnce }
{}

// Visited and chosen lists, parent before child.
pub fn from_parent()
    ensures { FromParent }
{}

// The comparisons of a range.
pub fn range_within<K>()
    ensures { RangeWithin K 120 }
{}

// The spans of a range by its places.
pub fn spans_counted<K>()
    ensures { SpansCounted K }
{}

// The points of a rectangle lie in the spans of its range.
pub fn rectangle<K>()
    ensures { Rectangle K }
{}

// And so they do where only the sieved lists are in order.
pub fn rectangle_of_lists<K>()
    ensures { RectangleOfLists K }
{}

// The worked cases of the definitions.
pub fn cases_hold()
    ensures { CasesHold }
{}

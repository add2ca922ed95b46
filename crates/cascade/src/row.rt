// A row of an augmented list: among the elements in front of a place, how many are the list's own keys,
// and how many are samples of the child of each ordinal.
#[derive(Clone, Copy, PartialEq, Eq, Default, Debug)]
pub struct Row {
    pub own: u32,
    pub children: [u32; 4],
}

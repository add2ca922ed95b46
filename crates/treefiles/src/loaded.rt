// How many places of list and entry memory a load has filled.
#[derive(Clone, Copy, PartialEq, Eq, Debug)]
pub struct Loaded {
    pub lists: usize,
    pub entries: usize,
}

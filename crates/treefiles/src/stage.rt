// What was read last of a tree file: its opening, a list, an entry or the closing field.
#[derive(Clone, Copy, PartialEq, Eq)]
pub enum Stage {
    Opening,
    List,
    Entry,
    Closing,
}

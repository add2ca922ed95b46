// A dated key: a day, and a serial within the day. The order of the fields is that of the comparison.
#[derive(Clone, Copy, PartialEq, Eq, PartialOrd, Ord, Debug)]
pub struct DatedKey {
    pub day: u32,
    pub serial: u32,
}

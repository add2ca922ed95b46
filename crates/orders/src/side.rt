// On which side of the keys that are the same as a sought key a search ends: on the low side before them,
// on the high side behind them.
#[derive(Clone, Copy, PartialEq, Eq)]
pub enum Side {
    Low,
    High,
}

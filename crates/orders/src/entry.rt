// An entry of a list: a key with its payload.
#[derive(Clone, Copy, PartialEq, Eq, Debug)]
pub struct Entry<K, P> {
    pub key: K,
    pub payload: P,
}

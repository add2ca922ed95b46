// Terms: the keys of term lists, and the marks of their entries.
#![tactic(auto)]

pub mod key;
pub mod marks;

#[cfg(test)]
mod tests {
    use crate::key::Term;
    use crate::marks::Marks;
    use orders::{KeyOrder, Payload};
    use std::cmp::Ordering;
    use std::test::Fail;

    #[test]
    fn terms_by_their_texts(rt: HostRuntime) -> Result<(), Fail> {
        let bolt = Term::new(b"bolt")?;
        let bolts = Term::new(b"bolts")?;
        let cap = Term::new(b"cap")?;
        assert_eq!(rt; bolt.compare(&bolts), Ordering::Less);
        assert_eq!(rt; cap.compare(&bolts), Ordering::Greater);
        assert_eq!(rt; cap.compare(&cap), Ordering::Equal);
        Ok(())
    }

    #[test]
    fn marks_unite(rt: HostRuntime) {
        let one = Marks { bits: 3 };
        let other = Marks { bits: 6 };
        assert_eq!(rt; one.join(other).bits, 7);
        assert_eq!(rt; Marks::neutral_payload().join(other).bits, 6);
    }
}

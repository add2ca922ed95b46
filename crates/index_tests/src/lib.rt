// Tests of the index through its calls, on a small tree whose keys are the letters' codes as days.
#![tactic(auto)]

#[cfg(test)]
mod ranges;

#[cfg(test)]
mod tests {
    use cascade::row::Row;
    use dated::key::DatedKey;
    use dated::words::Words;
    use faults::{Fault, Reason};
    use index::Index;
    use orders::entry::Entry;
    use orders::side::Side;
    use samples::{LISTS, day};
    use shelves::rows::ListRow;
    use shelves::stored::Stored;
    use std::test::Fail;

    // A letter's code as a day.
    fn letter(code: u8) -> DatedKey {
        day(u32::from(code))
    }

    fn entry(code: u8) -> Entry<DatedKey, Words> {
        Entry {
            key: letter(code),
            payload: Words { number: 1 },
        }
    }

    // b d f; below it a c d e g h k m; below that c d d x y.
    fn entries() -> [Entry<DatedKey, Words>; 16] {
        [
            entry(b'b'),
            entry(b'd'),
            entry(b'f'),
            entry(b'a'),
            entry(b'c'),
            entry(b'd'),
            entry(b'e'),
            entry(b'g'),
            entry(b'h'),
            entry(b'k'),
            entry(b'm'),
            entry(b'c'),
            entry(b'd'),
            entry(b'd'),
            entry(b'x'),
            entry(b'y'),
        ]
    }

    // The places of three stops.
    fn places(index: &Index<DatedKey, Words>, code: u8, side: Side) -> Result<[usize; 4], Fault> {
        let found = index.look_up(2, &letter(code), side)?;
        Ok([
            found.stops[0].place,
            found.stops[1].place,
            found.stops[2].place,
            found.comparisons,
        ])
    }

    #[test]
    fn small_tree(rt: HostRuntime) -> Result<(), Fail> {
        let entries = entries();
        let mut keys = [day(0); 19];
        let mut rows = [Row::default(); 22];
        let mut payloads = [Words { number: 0 }; 16];
        let mut index = Index::set_up(&mut keys, &mut rows, &mut payloads);
        index.build(&Stored::new(&LISTS, &entries))?;
        assert_eq!(rt; places(&index, b'd', Side::Low)?, [1, 2, 1, 8]);
        assert_eq!(rt; places(&index, b'd', Side::High)?, [2, 3, 3, 8]);
        assert_eq!(rt; places(&index, b'm', Side::Low)?, [3, 7, 3, 9]);
        assert_eq!(rt; places(&index, b'z', Side::Low)?, [3, 8, 5, 4]);
        let offer = index.offer(2, &letter(b'd'))?;
        assert_eq!(rt; offer.entries, 4);
        assert_eq!(rt; offer.comparisons, 16);
        assert_eq!(rt; offer.payload.number, 4);
        Ok(())
    }

    // The place of d in the root after a build that memory is too short for, and that refusal.
    fn refused_build() -> Result<(usize, Result<(), Fault>), Fault> {
        let entries = entries();
        let small = Stored::new(&LISTS[0..1], &entries);
        let large = Stored::new(&LISTS, &entries);
        let mut keys = [day(0); 18];
        let mut rows = [Row::default(); 22];
        let mut payloads = [Words { number: 0 }; 16];
        let mut index = Index::set_up(&mut keys, &mut rows, &mut payloads);
        index.build(&small)?;
        let refused = index.build(&large);
        let found = index.look_up(0, &letter(b'd'), Side::High)?;
        Ok((found.stops[0].place, refused))
    }

    // A refused build leaves the lists that were there.
    #[test]
    fn short_memory(rt: HostRuntime) -> Result<(), Fail> {
        let (place, refused) = refused_build()?;
        assert_eq!(rt; place, 2);
        assert_eq!(rt; refused, Err(Fault::new(Reason::IndexMemoryShort, 1, 19)));
        Ok(())
    }

    // Lists without entries: list v below list (v - 1) / `width`.
    fn bare(width: usize) -> [ListRow; 129] {
        let mut rows = [ListRow::default(); 129];
        if width > 0 {
            for (v, row) in rows.iter_mut().enumerate() {
                row.parent = v.saturating_sub(1) / width;
            }
        }
        rows
    }

    fn build_bare(width: usize, lists: usize) -> Result<(), Fault> {
        let table = bare(width);
        let entries = entries();
        let mut keys = [day(0); 1];
        let mut rows = [Row::default(); 128];
        let mut payloads = [Words { number: 0 }; 1];
        let mut index = Index::set_up(&mut keys, &mut rows, &mut payloads);
        if lists > 129 {
            return Ok(());
        }
        index.build(&Stored::new(&table[0..lists], &entries[0..0]))
    }

    #[test]
    fn limits(rt: HostRuntime) {
        assert_eq!(rt; build_bare(4, 128), Ok(()));
        assert_eq!(rt;
            build_bare(4, 129),
            Err(Fault::new(Reason::ListCount, 129, 0))
        );
        assert_eq!(rt; build_bare(4, 0), Err(Fault::new(Reason::ListCount, 0, 0)));
        assert_eq!(rt; build_bare(1, 9), Ok(()));
        assert_eq!(rt; build_bare(1, 10), Err(Fault::new(Reason::TooDeep, 9, 0)));
        assert_eq!(rt; build_bare(128, 5), Ok(()));
        assert_eq!(rt;
            build_bare(128, 6),
            Err(Fault::new(Reason::TooManyChildren, 5, 0))
        );
    }
}

// Tests of the shelves on tables made by hand, with dated keys and word counts.
#![tactic(auto)]

#[cfg(test)]
mod tests {
    use dated::key::DatedKey;
    use dated::words::Words;
    use faults::{Fault, Reason};
    use orders::entry::Entry;
    use shelves::Shelf;
    use shelves::either::Either;
    use shelves::rows::{ListRow, Point};
    use shelves::sieved::Sieved;
    use shelves::stored::Stored;
    use std::test::Fail;

    type DatedStored<'a> = Stored<'a, DatedKey, Words>;

    type DatedSieved<'a> = Sieved<'a, DatedKey, Words>;

    type DatedEither<'a> = Either<DatedSieved<'a>, DatedStored<'a>>;

    fn dated_entry(day: u32) -> Entry<DatedKey, Words> {
        Entry {
            key: DatedKey { day, serial: 0 },
            payload: Words { number: 1 },
        }
    }

    fn dated_point(slot: u8, day: u32) -> Point<DatedKey, Words> {
        let Entry { key, payload } = dated_entry(day);
        Point { slot, key, payload }
    }

    // The day at a place, nothing where there is no entry.
    fn day_at<S: Shelf<Key = DatedKey, Payload = Words>>(
        shelf: &S,
        list: usize,
        place: usize,
    ) -> Option<u32> {
        shelf.entry(list, place).map(|entry| entry.key.day)
    }

    #[test]
    fn lists_end_with_the_entry_table(rt: HostRuntime) {
        let rows = [
            ListRow {
                parent: 9,
                count: 2,
            },
            ListRow {
                parent: 0,
                count: usize::MAX,
            },
            ListRow {
                parent: 1,
                count: 1,
            },
        ];
        let entries = [dated_entry(10), dated_entry(20), dated_entry(30)];
        let shelf = Stored::new(&rows, &entries);
        assert_eq!(rt; shelf.lists(), 3);
        assert_eq!(rt; shelf.count(0), 2);
        assert_eq!(rt; shelf.count(1), 1);
        assert_eq!(rt; shelf.count(2), 0);
        assert_eq!(rt; shelf.count(3), 0);
        assert_eq!(rt; day_at(&shelf, 0, 1), Some(20));
        assert_eq!(rt; day_at(&shelf, 1, 0), Some(30));
        assert_eq!(rt; day_at(&shelf, 1, 1), None);
        assert_eq!(rt; day_at(&shelf, usize::MAX, 0), None);
    }

    #[test]
    fn parents_of_stored_lists(rt: HostRuntime) {
        let rows = [ListRow {
            parent: 9,
            count: 0,
        }];
        let entries = [dated_entry(10)];
        let shelf = Stored::new(&rows, &entries);
        assert_eq!(rt; shelf.parent(0), Some(9));
        assert_eq!(rt; shelf.parent(1), None);
    }

    #[test]
    fn empty_tables(rt: HostRuntime) {
        let rows: [ListRow; 0] = [];
        let entries: [Entry<DatedKey, Words>; 0] = [];
        let shelf = Stored::new(&rows, &entries);
        assert_eq!(rt; shelf.lists(), 0);
        assert_eq!(rt; shelf.count(0), 0);
        assert_eq!(rt; day_at(&shelf, 0, 0), None);
    }

    #[test]
    fn points_by_slots(rt: HostRuntime) -> Result<(), Fail> {
        let points = [dated_point(63, 10), dated_point(0, 20), dated_point(63, 30)];
        let shelf = DatedSieved::new(&points)?;
        assert_eq!(rt; shelf.lists(), 127);
        assert_eq!(rt; shelf.count(0), 3);
        assert_eq!(rt; shelf.count(126), 2);
        assert_eq!(rt; shelf.count(127), 0);
        assert_eq!(rt; day_at(&shelf, 63, 0), Some(20));
        assert_eq!(rt; day_at(&shelf, 126, 1), Some(30));
        assert_eq!(rt; day_at(&shelf, 126, 2), None);
        assert_eq!(rt; shelf.parent(126), Some(62));
        assert_eq!(rt; shelf.parent(0), Some(0));
        assert_eq!(rt; shelf.parent(127), None);
        Ok(())
    }

    #[test]
    fn first_slot_above_63(rt: HostRuntime) {
        let points = [dated_point(63, 1), dated_point(64, 2), dated_point(255, 3)];
        let fault = Fault::new(Reason::SlotAboveLimit, 1, 0);
        assert_eq!(rt; DatedSieved::new(&points).err(), Some(fault));
    }

    #[test]
    fn either_of_two(rt: HostRuntime) -> Result<(), Fail> {
        let points = [dated_point(5, 10)];
        let rows = [ListRow {
            parent: 0,
            count: 1,
        }];
        let entries = [dated_entry(20)];
        let first: DatedEither = Either::First(Sieved::new(&points)?);
        assert_eq!(rt; first.lists(), 127);
        assert_eq!(rt; day_at(&first, 68, 0), Some(10));
        let second: DatedEither = Either::Second(Stored::new(&rows, &entries));
        assert_eq!(rt; second.lists(), 1);
        assert_eq!(rt; day_at(&second, 0, 0), Some(20));
        Ok(())
    }
}

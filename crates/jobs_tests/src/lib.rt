// Tests of verdicts and job counts on a house list and a client's list below it.
#![tactic(auto)]

#[cfg(test)]
mod tests {
    use cascade::row::Row;
    use faults::{Fault, Reason};
    use index::Index;
    use jobs::job::{JobCount, count_job};
    use jobs::judging::verdict;
    use jobs::verdict::{Cause, Standing, Verdict};
    use orders::entry::Entry;
    use shelves::rows::ListRow;
    use shelves::stored::Stored;
    use terms::key::Term;
    use terms::marks::Marks;

    const ROWS: [ListRow; 2] = [
        ListRow {
            parent: 0,
            count: 5,
        },
        ListRow {
            parent: 0,
            count: 2,
        },
    ];

    fn entry(text: &[u8], bits: u32) -> Result<Entry<Term, Marks>, Fault> {
        Ok(Entry {
            key: Term::new(text)?,
            payload: Marks { bits },
        })
    }

    // The house has nail, nut, pin, tin and washer; below it the client has nail and nut.
    fn entries() -> Result<[Entry<Term, Marks>; 7], Fault> {
        Ok([
            entry(b"nail", 0)?,
            entry(b"nut", Marks::PREFERRED)?,
            entry(b"pin", Marks::BANNED)?,
            entry(b"tin", Marks::WITHDRAWN | Marks::BANNED | Marks::PREFERRED)?,
            entry(b"washer", Marks::WITHDRAWN)?,
            entry(b"nail", Marks::PREFERRED)?,
            entry(b"nut", Marks::BANNED)?,
        ])
    }

    // What a question comes to, asked of an index of the two lists.
    fn ask<T, F: FnOnce(&Index<'_, Term, Marks>) -> Result<T, Fault>>(
        question: F,
    ) -> Result<T, Fault>
        requires { F.IsAlwaysCallable question }
    {
        let entries = entries()?;
        let mut keys = [entries[0].key; 7];
        let mut rows = [Row::default(); 9];
        let mut payloads = [Marks::default(); 7];
        let mut index = Index::set_up(&mut keys, &mut rows, &mut payloads);
        index.build(&Stored::new(&ROWS, &entries))?;
        question(&index)
    }

    // The verdict on a text at a list.
    fn judge(list: usize, text: &[u8]) -> Result<Verdict, Fault> {
        let key = Term::new(text)?;
        ask(|index| verdict(index, list, &key))
    }

    // The count of a sheet at a list.
    fn count(list: usize, sheet: &[u8]) -> Result<JobCount, Fault> {
        ask(|index| count_job(index, list, sheet))
    }

    // A count of lines: offered, withheld, absent and unreadable ones, all, and the share.
    fn counted(kinds: [usize; 4], lines: usize, share: usize) -> JobCount {
        let [offered, withheld, absent, unreadable] = kinds;
        JobCount {
            lines,
            offered,
            withheld,
            absent,
            unreadable,
            share,
        }
    }

    #[test]
    fn verdicts(rt: HostRuntime) {
        assert_eq!(rt; judge(0, b"nail"), Ok(Verdict::Offered(Standing::Plain)));
        assert_eq!(rt; judge(0, b"nut"), Ok(Verdict::Offered(Standing::Preferred)));
        assert_eq!(rt; judge(0, b"pin"), Ok(Verdict::Withheld(Cause::Ban)));
        assert_eq!(rt; judge(0, b"tin"), Ok(Verdict::Withheld(Cause::Withdrawn)));
        assert_eq!(rt;
            judge(1, b"washer"),
            Ok(Verdict::Withheld(Cause::Withdrawn))
        );
        assert_eq!(rt;
            judge(1, b"nail"),
            Ok(Verdict::Offered(Standing::Preferred))
        );
        assert_eq!(rt; judge(1, b"nut"), Ok(Verdict::Withheld(Cause::Ban)));
        assert_eq!(rt; judge(1, b"nu"), Ok(Verdict::Absent));
        assert_eq!(rt; judge(2, b"nut"), Err(Fault::new(Reason::NoSuchList, 2, 0)));
    }

    #[test]
    fn sheets(rt: HostRuntime) {
        assert_eq!(rt; count(1, b""), Ok(counted([0, 0, 0, 0], 0, 0)));
        assert_eq!(rt; count(1, b"\n\n"), Ok(counted([0, 0, 0, 2], 2, 0)));
        assert_eq!(rt;
            count(0, b"nut\n\ncap\nnail"),
            Ok(counted([2, 0, 1, 1], 4, 50))
        );
        assert_eq!(rt;
            count(1, b"nut\nnail\ncap\n"),
            Ok(counted([1, 1, 1, 0], 3, 33))
        );
        assert_eq!(rt; count(0, b"n\0t\nnut\n"), Ok(counted([1, 0, 0, 1], 2, 50)));
        assert_eq!(rt; count(0, b"\n\x0d\n"), Ok(counted([0, 0, 1, 1], 2, 0)));
    }

    // A line of 32 bytes is a term's, one of 33 is not.
    #[test]
    fn long_lines(rt: HostRuntime) {
        let line = [b'n'; 33];
        assert_eq!(rt; count(0, &line[1..]), Ok(counted([0, 0, 1, 0], 1, 0)));
        assert_eq!(rt; count(0, &line), Ok(counted([0, 0, 0, 1], 1, 0)));
    }

    // The sheet's length is asked for first, then the list, even where there is no line.
    #[test]
    fn refusals(rt: HostRuntime) {
        let sheet = [b'\n'; 65_536];
        let most = 65_535;
        assert_eq!(rt;
            count(1, &sheet[1..]),
            Ok(counted([0, 0, 0, most], most, 0))
        );
        let too_long = Err(Fault::new(Reason::SheetTooLong, 65_536, 0));
        assert_eq!(rt; count(1, &sheet), too_long);
        assert_eq!(rt; count(2, &sheet), too_long);
        assert_eq!(rt; count(2, b""), Err(Fault::new(Reason::NoSuchList, 2, 0)));
    }
}

// Tests of tree files. They have a crate of their own because a crate with tests is proved twice.
#![tactic(auto)]

#[cfg(test)]
mod tests {
    use faults::{Fault, Reason};
    use orders::entry::Entry;
    use shelves::rows::ListRow;
    use std::process::Abort;
    use std::test::Fail;
    use terms::key::Term;
    use terms::marks::Marks;
    use treefiles::entry_points::galdrisco_check_tree;
    use treefiles::load;
    use treefiles::loaded::Loaded;

    // Two lists, the second with an entry.
    const TWO_LISTS: &[u8; 29] =
        b"V\x00\x02\x00\x01L\x00\x01\x00L\x00\x01\xffE\x00\x06\x00\x00\x00\x05upZ\x00\x04\x00\x00\x00\x01";

    // The file is refused, also by the function behind the export for C.
    fn refused(rt: &impl Abort, file: &[u8], reason: Reason, first: usize, second: usize) {
        assert_eq!(rt; load::check(file), Err(Fault::new(reason, first, second)));
        assert_eq!(rt; galdrisco_check_tree(file), reason.number());
    }

    fn row(parent: usize, count: usize) -> ListRow {
        ListRow { parent, count }
    }

    fn old_entry() -> Result<Entry<Term, Marks>, Fault> {
        Ok(Entry {
            key: Term::new(b"old")?,
            payload: Marks { bits: 8 },
        })
    }

    fn holds(rt: &impl Abort, entry: &Entry<Term, Marks>, text: &[u8], bits: u32) {
        assert!(rt; entry.key.text() == text);
        assert_eq!(rt; entry.payload.bits, bits);
    }

    #[test]
    fn openings(rt: HostRuntime) {
        refused(&rt, b"", Reason::FileOpening, 0, 0);
        refused(&rt, b"V\x00\x02\x00", Reason::FileOpening, 0, 0);
        refused(
            &rt,
            b"V\x00\x02\x00\x02L\x00\x01\x00",
            Reason::FileOpening,
            0,
            0,
        );
    }

    #[test]
    fn incomplete_fields(rt: HostRuntime) {
        refused(&rt, b"V\x00\x02\x00\x01", Reason::FieldIncomplete, 5, 0);
        refused(
            &rt,
            b"V\x00\x02\x00\x01L\x00\x01",
            Reason::FieldIncomplete,
            5,
            0,
        );
        refused(
            &rt,
            b"V\x00\x02\x00\x01L\x00\x01\x00",
            Reason::FieldIncomplete,
            9,
            0,
        );
        refused(
            &rt,
            b"V\x00\x02\x00\x01L\x00\x01\x00Z\x00\x04\x00\x00\x00",
            Reason::FieldIncomplete,
            9,
            0,
        );
        refused(
            &rt,
            b"V\x00\x02\x00\x01L\x00\x01\x00Z\x00\x04\x00\x00\x00\x00?",
            Reason::FieldIncomplete,
            16,
            0,
        );
    }

    #[test]
    fn fields_out_of_place(rt: HostRuntime) {
        refused(
            &rt,
            b"V\x00\x02\x00\x01E\x00\x05\x00\x00\x00\x00a",
            Reason::FieldNotAllowed,
            5,
            0,
        );
        refused(
            &rt,
            b"V\x00\x02\x00\x01L\x00\x01\x00V\x00\x02\x00\x01",
            Reason::FieldNotAllowed,
            9,
            0,
        );
        refused(
            &rt,
            b"V\x00\x02\x00\x01L\x00\x01\x00Z\x00\x04\x00\x00\x00\x00L\x00\x01\x00",
            Reason::FieldNotAllowed,
            16,
            0,
        );
    }

    #[test]
    fn lengths_and_numbers(rt: HostRuntime) {
        refused(
            &rt,
            b"V\x00\x02\x00\x01L\x00\x02\x00\x00",
            Reason::FieldLength,
            5,
            0,
        );
        refused(
            &rt,
            b"V\x00\x02\x00\x01L\x00\x01\x00E\x00\x04\x00\x00\x00\x00",
            Reason::FieldLength,
            9,
            0,
        );
        refused(
            &rt,
            b"V\x00\x02\x00\x01L\x00\x01\x00Z\x00\x03\x00\x00\x00",
            Reason::FieldLength,
            9,
            0,
        );
        refused(
            &rt,
            b"V\x00\x02\x00\x01L\x00\x01\x01",
            Reason::FieldNumber,
            5,
            0,
        );
        refused(
            &rt,
            b"V\x00\x02\x00\x01L\x00\x01\x00Z\x00\x04\x00\x00\x00\x01",
            Reason::FieldNumber,
            9,
            0,
        );
    }

    #[test]
    fn key_faults_name_their_field(rt: HostRuntime) {
        refused(
            &rt,
            b"V\x00\x02\x00\x01L\x00\x01\x00E\x00\x07\x00\x00\x00\x00a\x00b",
            Reason::KeyZeroByte,
            1,
            9,
        );
    }

    #[test]
    fn smallest_tree(rt: HostRuntime) {
        let file = b"V\x00\x02\x00\x01L\x00\x01\x00Z\x00\x04\x00\x00\x00\x00";
        assert_eq!(rt;
            load::check(file),
            Ok(Loaded {
                lists: 1,
                entries: 0,
            })
        );
        assert_eq!(rt; galdrisco_check_tree(file), 0);
    }

    #[test]
    fn what_lies_behind_is_kept(rt: HostRuntime) -> Result<(), Fail> {
        let mut lists = [row(7, 9); 3];
        let mut entries = [old_entry()?; 2];
        assert_eq!(rt;
            load::load(TWO_LISTS, &mut lists, &mut entries),
            Ok(Loaded {
                lists: 2,
                entries: 1,
            })
        );
        assert_eq!(rt; lists, [row(0, 0), row(255, 1), row(7, 9)]);
        holds(&rt, &entries[0], b"up", 5);
        holds(&rt, &entries[1], b"old", 8);
        Ok(())
    }

    #[test]
    fn short_memory_is_kept(rt: HostRuntime) -> Result<(), Fail> {
        let mut lists = [row(7, 9); 2];
        let mut entries = [old_entry()?; 1];
        let short = load::load(TWO_LISTS, &mut lists[0..1], &mut entries[0..0]);
        assert_eq!(rt; short, Err(Fault::new(Reason::LoadMemoryShort, 1, 2)));
        let short = load::load(TWO_LISTS, &mut lists, &mut entries[0..0]);
        assert_eq!(rt; short, Err(Fault::new(Reason::LoadMemoryShort, 2, 1)));
        assert_eq!(rt; lists, [row(7, 9); 2]);
        holds(&rt, &entries[0], b"old", 8);
        Ok(())
    }
}

//! Tests of both commit tables: bytes written out by hand, the largest tables, and the sizes at the limits.
#![tactic(auto)]

#[cfg(test)]
mod tests {
    use commit_table::{CommitTable, NotPlaced};
    use model::CommitEntry;
    use std::process::Abort;
    use std::test::Fail;
    use strip::StripMemory;
    use strip::making::lay_out;
    use table::{Entry, Sheet};

    #[test]
    fn bytes_after_place_and_drop(rt: HostRuntime) -> Result<(), Fail> {
        let mut bytes = [0xff; 88];
        let Ok(memory) = StripMemory::check(&mut bytes) else {
            return Err(Fail::new("88 bytes were refused"));
        };
        let mut strip = memory.strip();
        assert_eq!(rt;
            strip.place(0x0102030405060708, CommitEntry::Committed(258)),
            Ok(())
        );
        assert_eq!(rt; strip.place(10, CommitEntry::Aborted), Ok(()));
        let two = [
            2, 0, 3, 0, 16, 0, 0, 0, 64, 0, 0, 0, 0, 0, 0, 0, // two of three, entries from byte 16, free from byte 64
            8, 7, 6, 5, 4, 3, 2, 1, 1, 0, 0, 0, 0, 0, 0, 0, 2, 1, 0, 0, 0, 0, 0, 0, // committed at 258
            10, 0, 0, 0, 0, 0, 0, 0, 2, 0, 0, 0, 0, 0, 0, 0, 0, 0, 0, 0, 0, 0, 0, 0, // aborted
            0, 0, 0, 0, 0, 0, 0, 0, 0, 0, 0, 0, 0, 0, 0, 0, 0, 0, 0, 0, 0, 0, 0, 0,
        ];
        assert!(rt; strip.bytes() == &two[..]);
        assert!(rt; strip.drop_entry(0x0102030405060708));
        let one = [
            1, 0, 3, 0, 16, 0, 0, 0, 40, 0, 0, 0, 0, 0, 0, 0, // one of three, free from byte 40
            10, 0, 0, 0, 0, 0, 0, 0, 2, 0, 0, 0, 0, 0, 0, 0, 0, 0, 0, 0, 0, 0, 0, 0, // moved into the gap
            0, 0, 0, 0, 0, 0, 0, 0, 0, 0, 0, 0, 0, 0, 0, 0, 0, 0, 0, 0, 0, 0, 0, 0, 0, 0, 0, 0, 0,
            0, 0, 0, 0, 0, 0, 0, 0, 0, 0, 0, 0, 0, 0, 0, 0, 0, 0, 0,
        ];
        assert!(rt; strip.bytes() == &one[..]);
        Ok(())
    }

    // Fills a table of 2,000 places with ids 1, 4, 7, .. and asks for the first, the last and absent ones.
    fn fill<T: CommitTable>(rt: &impl Abort, table: &mut T) {
        for i in 0..2000u64 {
            assert_eq!(rt; table.place(3 * i + 1, CommitEntry::Committed(i)), Ok(()));
        }
        assert_eq!(rt; table.count(), 2000);
        assert_eq!(rt; table.look_up(1), Some(CommitEntry::Committed(0)));
        assert_eq!(rt; table.look_up(5998), Some(CommitEntry::Committed(1999)));
        assert_eq!(rt; table.look_up(2), None);
        assert_eq!(rt; table.look_up(6001), None);
        assert_eq!(rt; table.place(0, CommitEntry::Aborted), Err(NotPlaced::Full));
    }

    #[test]
    fn two_thousand_on_a_strip(rt: HostRuntime) -> Result<(), Fail> {
        let mut bytes = [0; 48016];
        let Ok(memory) = StripMemory::check(&mut bytes) else {
            return Err(Fail::new("48,016 bytes were refused"));
        };
        let mut strip = memory.strip();
        fill(&rt, &mut strip);
        Ok(())
    }

    const FREE: Entry<CommitEntry> = Entry {
        tag: 0,
        value: CommitEntry::Aborted,
    };

    #[test]
    fn two_thousand_on_a_sheet(rt: HostRuntime) -> Result<(), Fail> {
        let mut cells = [FREE; 2000];
        let Ok(mut sheet) = Sheet::over(&mut cells) else {
            return Err(Fail::new("2,000 places were refused"));
        };
        fill(&rt, &mut sheet);
        Ok(())
    }

    #[test]
    fn sheet_sizes(rt: HostRuntime) {
        assert!(rt; Sheet::over(&mut [FREE; 1]).is_ok());
        assert!(rt; Sheet::over(&mut [FREE; 0]).is_err());
        assert!(rt; Sheet::over(&mut [FREE; 2001]).is_err());
    }

    // These sevens are refused, and stay.
    fn refused(rt: &impl Abort, bytes: &mut [u8]) {
        assert_eq!(rt; lay_out(bytes).ok(), None);
        assert!(rt; bytes.iter().all(|byte| *byte == 7));
    }

    #[test]
    fn strip_sizes(rt: HostRuntime) {
        assert_eq!(rt; lay_out(&mut [7; 40]).ok(), Some(1));
        assert_eq!(rt; lay_out(&mut [7; 48016]).ok(), Some(2000));
        refused(&rt, &mut [7; 15]);
        refused(&rt, &mut [7; 16]);
        refused(&rt, &mut [7; 39]);
        refused(&rt, &mut [7; 41]);
        refused(&rt, &mut [7; 48040]);
    }
}

// Examples of sets, sheets and cases, each proved and then run.
#![tactic(auto)]

#[cfg(test)]
mod tests {
    use cases::{Case, read};
    use faults::{Fault, FaultKind, Section};
    use records::Tables;
    use std::test::Fail;

    // Four switches and one flow from 0 to 3, whose middle two switches change places.
    const DIAMOND: &[u8; 55] = b"\x04\
        \0\0\0\0\0\0\0\x06\0\0\0\0\0\0\0\x0c\0\0\0\0\0\0\0\x0a\0\0\0\0\0\0\0\0\
        \x01\0\x03\
        \x04\x01\x02\x03\xff\
        \x04\x02\x03\x01\xff\
        \x01\0\0\0\0\0\0\0\0";

    #[test]
    fn a_case_is_what_the_sheet_says(rt: HostRuntime) {
        let mut case = Case::smallest();
        assert!(rt; read(DIAMOND, &mut case).is_ok());
        assert_eq!(rt; case.switches(), 4);
        assert_eq!(rt; case.flows(), 1);
        assert_eq!(rt; case.ingress(0), Some(0));
        assert_eq!(rt; case.exit(0), Some(3));
        assert_eq!(rt; case.needed(0), Some(0));
        assert_eq!(rt; case.movers(), 7);
        assert!(rt; case.old_table() == b"\x01\x02\x03\xff".as_slice());
        assert!(rt; case.new_table() == b"\x02\x03\x01\xff".as_slice());
    }

    #[test]
    fn there_is_nothing_past_the_last_flow(rt: HostRuntime) {
        let case = Case::smallest();
        assert_eq!(rt; case.ingress(0), Some(0));
        assert_eq!(rt; case.ingress(1), None);
        assert_eq!(rt; case.exit(8), None);
        assert_eq!(rt; case.needed(255), None);
    }

    #[test]
    fn a_fault_leaves_the_place(rt: HostRuntime) {
        let mut case = Case::smallest();
        assert!(rt; read(DIAMOND, &mut case).is_ok());
        let whole: &[u8] = DIAMOND;
        let fault = Fault {
            kind: FaultKind::EndsTooSoon,
            section: Section::E,
            place: 54,
        };
        assert_eq!(rt; read(&whole[..54], &mut case), Err(fault));
        assert_eq!(rt; fault.number(), 1);
        assert_eq!(rt; fault.letter(), 'E');
        assert_eq!(rt; case.switches(), 4);
        assert_eq!(rt; case.movers(), 7);
    }

    #[test]
    fn a_fault_is_told_by_number_letter_and_place(rt: HostRuntime) -> Result<(), Fail> {
        let fault = Fault {
            kind: FaultKind::TooManyMovers,
            section: Section::D,
            place: 41,
        };
        let text = format!(in rt.alloc(); "{fault}")?;
        assert_eq!(rt; text.as_str(), "10 D 41");
        Ok(())
    }

    #[test]
    fn kinds_and_sections_have_numbers_and_letters(rt: HostRuntime) {
        assert_eq!(rt; u8::from(FaultKind::Hop), 7);
        assert_eq!(rt; char::from(Section::B), 'B');
    }

    // The diamond's tables, in which the rows of switches 0, 1 and 2 differ.
    #[test]
    fn movers_stand_between_whole_tables(rt: HostRuntime) {
        let old = b"\x01\x02\x03\xff".as_slice();
        let new = b"\x02\x03\x01\xff".as_slice();
        assert_eq!(rt; Tables::new(old, new, 4, 1).map(|t| t.movers()), Some(7));
        assert_eq!(rt; Tables::new(old, old, 4, 1).map(|t| t.movers()), Some(0));
        assert!(rt; Tables::new(old, new, 5, 1).is_none());
        assert!(rt; Tables::new(old, &new[..3], 4, 1).is_none());
        assert!(rt; Tables::new(&[], &[], 65, 0).is_none());
    }

    #[test]
    fn switches_come_rising(rt: HostRuntime) {
        let mut left = sets::rising(1 << 63 | 40);
        assert_eq!(rt; left.next(), Some(3));
        assert_eq!(rt; left.next(), Some(5));
        assert_eq!(rt; left.next(), Some(63));
        assert_eq!(rt; left.next(), None);
    }

    #[test]
    fn sets_have_switches_0_to_63(rt: HostRuntime) {
        assert_eq!(rt; sets::with(0, 63), 1 << 63);
        assert_eq!(rt; sets::with(5, 64), 5);
        assert_eq!(rt; sets::without(7, 1), 5);
        assert_eq!(rt; sets::without(7, 200), 7);
        assert!(rt; sets::has(u64::MAX, 63) && !sets::has(u64::MAX, 64));
        assert!(rt; sets::part_of(5, 7) && !sets::part_of(7, 5));
        assert!(rt; sets::apart(5, 2) && !sets::apart(5, 4));
        assert!(rt; sets::below(7, 3) && !sets::below(8, 3) && sets::below(u64::MAX, 64));
        assert_eq!(rt; sets::count(u64::MAX), 64);
        assert_eq!(rt; sets::lowest(40), Some(3));
        assert_eq!(rt; sets::lowest(0), None);
    }
}

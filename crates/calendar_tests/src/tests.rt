//! Examples of the calendar: which years are taken, and what is read of a month.
use calendar::Calendar;
use std::process::Abort;

/// A new calendar, filled so, is refused by this number at this place, or takes the year where there is none.
fn filled(
    rt: &impl Abort,
    year_hours: u32,
    firsts: &[u16],
    lengths: &[u16],
    refusal: Option<(u32, u32)>,
) {
    let mut calendar = Calendar::new();
    let answer = calendar.fill(year_hours, firsts, lengths);
    let refused = answer.err().map(|fault| (fault.number(), fault.place()));
    assert_eq!(rt; refused, refusal);
    if refusal.is_some() {
        assert_eq!(rt; calendar.year_hours(), 8_760);
        assert_eq!(rt; calendar.stress_hours_in(1), 744);
    }
}

#[test]
fn five_to_ten_per_cent(rt: HostRuntime) {
    filled(&rt, 8_760, &[0], &[437], Some((5, 0)));
    filled(&rt, 8_760, &[0], &[438], None);
    filled(&rt, 8_760, &[0], &[876], None);
    filled(&rt, 8_760, &[0], &[877], Some((5, 0)));
    filled(&rt, 8_784, &[0], &[439], Some((5, 0)));
    filled(&rt, 8_784, &[0], &[440], None);
    filled(&rt, 8_784, &[0], &[878], None);
    filled(&rt, 8_784, &[0], &[879], Some((5, 0)));
}

#[test]
fn the_first_fault_and_its_place(rt: HostRuntime) {
    filled(&rt, 8_761, &[0], &[0, 0], Some((3, 0)));
    filled(&rt, 8_760, &[0], &[0, 500], Some((4, 0)));
    filled(&rt, 8_760, &[0; 367], &[0; 367], Some((4, 0)));
    filled(&rt, 8_760, &[], &[], Some((5, 0)));
    filled(&rt, 8_760, &[0, 500], &[500, 100], Some((4, 2)));
    filled(&rt, 8_760, &[0, 501, 400], &[500, 0, 100], Some((4, 2)));
    filled(&rt, 8_760, &[8_260], &[500], None);
    filled(&rt, 8_760, &[8_261], &[500], Some((4, 1)));
}

#[test]
fn numbers_of_16_bits_never_wrap(rt: HostRuntime) {
    filled(&rt, 8_760, &[65_535], &[500], Some((4, 1)));
    filled(&rt, 8_760, &[65_535], &[65_535], Some((4, 1)));
    filled(&rt, 8_760, &[65_036], &[500], Some((4, 1)));
    filled(&rt, 8_760, &[0, 65_535], &[500, 2], Some((4, 2)));
}

/// Counting a month's stress hours, walking them and asking of each hour come to the same.
fn readings_agree(rt: &impl Abort, calendar: &Calendar, month: u32) {
    let counted = calendar.stress_hours_in(month) as usize;
    assert_eq!(rt; calendar.stress_hours(month).count(), counted);
    assert!(rt;
        calendar
            .stress_hours(month)
            .all(|hour| calendar.is_stress(hour))
    );
    let asked = calendar
        .month_hours(month)
        .filter(|&hour| calendar.is_stress(hour))
        .count();
    assert_eq!(rt; asked, counted);
}

#[test]
fn readings_of_every_month_agree(rt: HostRuntime) {
    let mut calendar = Calendar::new();
    let before = calendar;
    assert!(rt;
        calendar
            .fill(8_784, &[700, 1_430, 8_724], &[100, 340, 60])
            .is_ok()
    );
    // A copy keeps its year, and so does a clone of it, whatever the calendar is filled with.
    assert_eq!(rt; before.year_hours(), 8_760);
    assert_eq!(rt; before.stress_hours_in(1), 744);
    assert!(rt;
        before
            .clone()
            .is_ok_and(|clone| clone.stress_hours_in(1) == 744)
    );
    for month in 0..14 {
        readings_agree(&rt, &calendar, month);
    }
    assert_eq!(rt; calendar.stress_hours_in(1), 44);
    assert_eq!(rt; calendar.stress_hours_in(2), 66);
    assert_eq!(rt; calendar.stress_hours_in(3), 330);
    assert_eq!(rt; calendar.stress_hours_in(12), 60);
    assert_eq!(rt; calendar.month_begins(3), 1_440);
    // There are no months but twelve.
    assert_eq!(rt; calendar.month_ends(0), 0);
    assert_eq!(rt; calendar.month_begins(13), 8_784);
    assert_eq!(rt; calendar.month_ends(13), 8_784);
}

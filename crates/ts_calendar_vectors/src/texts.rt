// Texts of calendars. The places are counted by hand: `pattname` or `pattern` stands at byte 64 of these texts.
use std::alloc::Global;
use ts_base::{Bytes, Refusal, Trouble};
use ts_calendar::CalendarText;

const DATES: &[u8] = b"startdate(2011-01-02 00:00:00), pattstart(2011-01-02 00:00:00), ";

/// Texts, and what a copy of each is printed as.
static FORMS: [(&[u8], &[u8]); 4] = [
    (
        b"startdate(2011-01-02 00:00:00),pattstart(2011-01-02 00:00:00),pattname(ww)",
        b"startdate(2011-01-02 00:00:00.00000), pattstart(2011-01-02 00:00:00.00000), pattname(ww)",
    ),
    (
        b"startdate(2011-01-05 06:00:00), pattstart(2011-01-05 06:00:00), pattern({1 on},hour)",
        b"startdate(2011-01-05 06:00:00.00000), pattstart(2011-01-05 06:00:00.00000), pattern({1 on},hour)",
    ),
    (
        b"\tstartdate (\n2011-01-02 00:00:00.5 ) ,\r pattstart( 2011-01-03 00:00:00\t) , pattern ( { 07 on,1on } , day ) ",
        b"startdate(2011-01-02 00:00:00.50000), pattstart(2011-01-03 00:00:00.00000), pattern({8 on},day)",
    ),
    (
        b"startdate(9999-12-31 23:59:59.99999),pattstart(0001-01-01 00:00:00),pattname( _2a )",
        b"startdate(9999-12-31 23:59:59.99999), pattstart(0001-01-01 00:00:00.00000), pattname(_2a)",
    ),
];

// Whether a copy of the calendar that a text is prints this form.
fn has_form(alloc: Global, text: &[u8], form: &[u8]) -> Option<bool> {
    if text.len() > 1000 {
        return None;
    }
    let copy = CalendarText::read(alloc, text).ok()?.copy().ok()?;
    let mut out = Bytes::new(alloc);
    copy.print(alloc, &mut out).ok()?;
    Some(out.as_slice() == form)
}

#[test]
fn a_text_is_printed_in_one_form(rt: HostRuntime) {
    for (text, form) in &FORMS {
        assert!(rt; has_form(rt.alloc(), text, form) == Some(true));
    }
}

// Why a text is refused, if it is.
fn refusal(alloc: Global, text: &[u8]) -> Option<Refusal> {
    if text.len() > 1000 {
        return None;
    }
    match CalendarText::read(alloc, text) {
        Err(Trouble::Refused(why)) => Some(why),
        _ => None,
    }
}

/// Texts, and the place of what is no date.
static DATED: [(&[u8], u32); 13] = [
    (b"", 0),
    (b" \t", 2),
    (b"pattstart(2011-01-02 00:00:00)", 0),
    (b"startdate", 9),
    (b"startdate 2011-01-02 00:00:00", 10),
    (b"startdate( ", 11),
    (b"startdate( )", 11),
    (b"startdate( 2011-01-32 00:00:00), ", 11),
    (b"startdate(2011-01-02 00:00:00", 29),
    (b"startdate(2011-01-02 00:00:00) ", 31),
    (b"startdate(2011-01-02 00:00:00) pattstart", 31),
    (b"startdate(2011-01-02 00:00:00),startdate(", 31),
    (
        b"startdate(2011-01-02 00:00:00),pattstart(2011-02-29 00:00:00),",
        41,
    ),
];

#[test]
fn a_date_that_is_none_is_refused_at_its_place(rt: HostRuntime) {
    for (text, place) in &DATED {
        let why = Refusal::BadCalendar { place: *place };
        assert!(rt; refusal(rt.alloc(), text) == Some(why));
    }
}

/// What stands behind the two dates, and why it is refused.
static PARTS: [(&[u8], Option<Refusal>); 16] = [
    (b"", Some(Refusal::BadCalendar { place: 64 })),
    (b"patt(ww)", Some(Refusal::BadCalendar { place: 64 })),
    (b"pattnames(ww)", Some(Refusal::BadCalendar { place: 64 })),
    (b"pattname ww", Some(Refusal::BadCalendar { place: 73 })),
    (b"pattname()", Some(Refusal::BadCalendar { place: 73 })),
    (b"pattname(1w)", Some(Refusal::BadCalendar { place: 73 })),
    (
        b"pattname(abcdefghijklmnopqrstuvwxyz_123456)",
        Some(Refusal::BadCalendar { place: 73 }),
    ),
    (b"pattname(ww", Some(Refusal::BadCalendar { place: 75 })),
    (b"pattname(ww) x", Some(Refusal::BadCalendar { place: 77 })),
    (b"pattern(ww)", Some(Refusal::BadCalendar { place: 72 })),
    (
        b"pattern({1 on},days)",
        Some(Refusal::BadCalendar { place: 79 }),
    ),
    (
        b"pattern({1 on},day",
        Some(Refusal::BadCalendar { place: 82 }),
    ),
    (
        b"pattern({1 on},day},",
        Some(Refusal::BadCalendar { place: 82 }),
    ),
    (
        b"pattern({527041 on},second) x",
        Some(Refusal::BadCalendar { place: 92 }),
    ),
    (b"pattname(abcdefghijklmnopqrstuvwxyz_12345)", None),
    (
        b"pattern({527040 on,1 off},second)",
        Some(Refusal::PatternTooLong {
            length: 527_041,
            runs: 0,
        }),
    ),
];

// Why a text of the two dates and this part is refused, if it is.
fn refusal_of(alloc: Global, part: &[u8]) -> Option<Option<Refusal>> {
    let mut text = Bytes::from_slice(alloc, DATES).ok()?;
    text.extend_from_slice(part).ok()?;
    Some(refusal(alloc, text.as_slice()))
}

#[test]
fn a_part_that_is_none_is_refused_at_its_place(rt: HostRuntime) {
    for (part, why) in &PARTS {
        assert!(rt; refusal_of(rt.alloc(), part) == Some(*why));
    }
}

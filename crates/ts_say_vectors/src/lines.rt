// Lines of counts, series, refusals, patterns and calendars, as a user reads them.
use std::alloc::Global;
use std::test::Fail;
use ts_base::{Refusal, Reply, Stamp, Trouble};
use ts_calendar::CalendarText;
use ts_pattern::Pattern;
use ts_say::{
    say_calendar, say_count, say_counts, say_ok, say_pattern, say_refusal, say_series, say_signed,
    say_stamp, say_stamps,
};

// A reply with each line of one kind.
fn lines(alloc: Global) -> Result<Reply, Fail> {
    let mut out = Reply::new(alloc);
    say_ok(&mut out)?;
    say_count(&mut out, 2)?;
    say_counts(&mut out, 1, 65536)?;
    say_series(&mut out, b"it's", false, 10)?;
    say_series(&mut out, b"b", true, 2)?;
    say_refusal(
        &mut out,
        &Refusal::ContainerFull {
            charge: 3,
            quota: 1,
        },
    )?;
    Ok(out)
}

#[test]
fn lines_are_said_behind_each_other(rt: HostRuntime) -> Result<(), Fail> {
    let said = lines(rt.alloc())?;
    let wanted: &[u8] =
        b"ok\nok 2\nok 1 65536\n'it''s' irregular 10\n'b' regular 2\nerror 30 ContainerFull\n";
    assert!(rt; said.as_slice() == wanted);
    Ok(())
}

// A pattern, a calendar and two on starts.
fn calendar_lines(alloc: Global) -> Result<Reply, Trouble> {
    let mut out = Reply::new(alloc);
    let pattern = Pattern::read(alloc, b"{ 5 on, 2 off }, day")?;
    say_pattern(alloc, &mut out, &pattern)?;
    let text: &[u8] =
        b"startdate(2011-01-03 00:00:00), pattstart(2011-01-03 00:00:00), pattname(w)";
    let calendar = CalendarText::read(alloc, text)?;
    say_calendar(alloc, &mut out, &calendar)?;
    say_signed(&mut out, -3)?;
    say_stamps(&mut out, &[calendar.start, calendar.patt_start])?;
    Ok(out)
}

#[test]
fn calendars_are_said_in_lines(rt: HostRuntime) -> Result<(), Fail> {
    let said = calendar_lines(rt.alloc())?;
    let wanted: &[u8] =
        b"{5 on,2 off},day\nok\nstartdate(2011-01-03 00:00:00.00000), pattstart(2011-01-03 00:00:00.00000), pattname(w)\nok\nok -3\n2011-01-03 00:00:00.00000\n2011-01-03 00:00:00.00000\nok 2\n";
    assert!(rt; said.as_slice() == wanted);
    Ok(())
}

#[test]
fn a_stamp_is_said_to_its_last_digit(rt: HostRuntime) -> Result<(), Fail> {
    let mut out = Reply::new(rt.alloc());
    let Some(stamp) = Stamp::read(b"2011-01-03 00:00:00") else {
        return Err(Fail::from("no stamp"));
    };
    say_stamp(&mut out, stamp)?;
    let wanted: &[u8] = b"ok 2011-01-03 00:00:00.00000\n";
    assert!(rt; out.as_slice() == wanted);
    Ok(())
}

// What a reply says of patterns, of calendars and of their on starts.
ghost use Rattle.std.specs.Prelude.{◌≡◌, ◌++◌, OnOk, OnErr, codes, length};
ghost use Rattle.std.specs.List.{flat_map};
ghost use Rattle.ts_answer.specs.Reply.{ok_line, pattern_lines, calendar_lines, stamp_row, stamps_text};
ghost use Rattle.ts_row.specs.Row.{Extends};

use crate::say::say_ok;
use crate::say_values::{say_count, say_stamp_text};
use std::alloc::{AllocError, Global};
use ts_base::{Bytes, Reply, Stamp};
use ts_calendar::CalendarText;
use ts_pattern::Pattern;

/// Says a pattern in a line.
#[tactic(auto, unfolding(ts_answer::specs::Reply::pattern_lines))]
pub fn say_pattern(alloc: Global, out: &mut Reply, pattern: &Pattern) -> Result<(), AllocError>
    ensures ok { OnOk result (out.new ≡ out.old ++ pattern_lines pattern.now) }
    ensures err { OnErr result (Extends out.old out.new) }
{
    let mut text = Bytes::new(alloc);
    pattern.print(&mut text)?;
    say_text(out, text.as_slice())
}

/// Says a calendar in a line.
#[tactic(auto, unfolding(ts_answer::specs::Reply::calendar_lines))]
pub fn say_calendar(
    alloc: Global,
    out: &mut Reply,
    calendar: &CalendarText,
) -> Result<(), AllocError>
    ensures ok { OnOk result (out.new ≡ out.old ++ calendar_lines calendar.now) }
    ensures err { OnErr result (Extends out.old out.new) }
{
    let mut text = Bytes::new(alloc);
    calendar.print(alloc, &mut text)?;
    say_text(out, text.as_slice())
}

/// Says stamps, one a line, and how many they are.
#[tactic(auto, unfolding(ts_answer::specs::Reply::stamps_text))]
pub fn say_stamps(out: &mut Reply, stamps: &[Stamp]) -> Result<(), AllocError>
    ensures ok { OnOk result (out.new ≡ out.old ++ stamps_text stamps.now) }
    ensures err { OnErr result (Extends out.old out.new) }
{
    say_rows(out, stamps)?;
    say_count(out, stamps.len() as u64)
}

fn say_rows(out: &mut Reply, stamps: &[Stamp]) -> Result<(), AllocError>
    ensures ok { OnOk result (out.new ≡ out.old ++ flat_map stamp_row stamps.now) }
    ensures err { OnErr result (Extends out.old out.new) }
{
    for stamp in stamps {
        say_row(out, *stamp)?;
    }
    Ok(())
}

// Says a stamp alone in a line.
fn say_row(out: &mut Reply, stamp: Stamp) -> Result<(), AllocError>
    ensures ok { OnOk result (out.new ≡ out.old ++ stamp_row stamp) }
    ensures err { OnErr result (Extends out.old out.new) }
{
    say_stamp_text(out, stamp)?;
    out.extend_from_slice(b"\n")
}

// Says a text in a line, and that the command was carried out.
fn say_text(out: &mut Reply, text: &[u8]) -> Result<(), AllocError>
    ensures ok { OnOk result (out.new ≡ out.old ++ text.now ++ codes "\n" ++ ok_line) }
    ensures err { OnErr result (Extends out.old out.new) }
{
    out.extend_from_slice(text)?;
    out.extend_from_slice(b"\n")?;
    say_ok(out)
}

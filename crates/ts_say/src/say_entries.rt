// Entries of a series, said in lines.
ghost use Rattle.std.specs.Prelude.{◌≡◌, ◌++◌, List, length, None, OnOk, OnErr, Some};
ghost use Rattle.ts_row.specs.declared.kind.Column.{Column};
ghost use Rattle.ts_row.specs.Row.{Row as TheRow, width_of, Extends};
ghost use Rattle.ts_entry.specs.Entry.{AreSeenBytes};
ghost use Rattle.ts_answer.specs.Reply.{entry_line};

use crate::day_text::DayText;
use crate::say_bytes::say_values_in;
use std::alloc::AllocError;
use ts_base::{Reply, Stamp};
use ts_entry::EntryVisitor;
use ts_row::RowType;

/// The lines of entries, behind what a reply has said: each entry that it is handed is said in a line of its own, an
/// element straight from its bytes.
#[derive(Drop)]
pub struct EntryLines<'a> {
    out: &'a mut Reply,
    day: DayText,
}

impl<'a> EntryLines<'a> {
    /// None so far.
    pub fn behind(out: &'a mut Reply) -> EntryLines<'a>
        ensures same { result.out.ghost_name ≡ out.entry.ghost_name }
        ensures none { result.out.now ≡ out.old }
    {
        EntryLines {
            out,
            day: DayText::first(),
        }
    }
}

impl<'a> EntryVisitor for EntryLines<'a> {
    ghost use Rattle.std.specs.Prelude.{◌≡◌, ◌++◌};
    ghost use Rattle.std.specs.List.{flat_map};
    ghost use Rattle.std.proofs.Common.{refl, sym, ap, ◌∙◌, append_assoc, append-nil};
    ghost use Rattle.std.proofs.lemmas.List.Concat.{flat_map-append};
    ghost use Rattle.ts_answer.specs.Reply.{entry_line};

    ghost took = { λ columns v es w. (w.out.ghost_name ≡ v.out.ghost_name)
        × (w.out.now ≡ v.out.now ++ flat_map (entry_line columns) es) };

    fn element(&mut self, kind: &RowType, stamp: Stamp, row: &[u8]) -> Result<(), AllocError> {
        say_seen(self.out, &mut self.day, kind, stamp, row)
    }

    fn blank(&mut self, _kind: &RowType, stamp: Stamp) -> Result<(), AllocError> {
        say_blank(self.out, &mut self.day, stamp)
    }

    ghost none = { λ columns v. (refl, sym (append-nil v.out.now)) };

    ghost then = { λ columns a b c es fs p q. (
      q.0 ∙ p.0,
      q.1 ∙ ap (λ l. l ++ flat_map (entry_line columns) fs) p.1
          ∙ append_assoc a.out.now (flat_map (entry_line columns) es) (flat_map (entry_line columns) fs)
          ∙ ap (λ l. a.out.now ++ l) (sym (flat_map-append (entry_line columns) es fs)),
    ) };
}

// Says an element with a row of these bytes.
fn say_seen(
    out: &mut Reply,
    day: &mut DayText,
    kind: &RowType,
    stamp: Stamp,
    row: &[u8],
) -> Result<(), AllocError>
    requires { length row.now ≡ width_of kind.now.columns }
    ensures ok { OnOk result ((r : TheRow) → AreSeenBytes kind.now.columns row.now r
        → out.new ≡ out.old ++ entry_line kind.now.columns (stamp, Some r)) }
    ensures err { OnErr result (Extends out.old out.new) }
{
    day.say(out, stamp)?;
    say_values_in(out, kind.columns(), row)
}

// Says a stamp at which there is no element.
#[tactic(auto, unfolding(ts_answer::specs::Reply::entry_line))]
fn say_blank(out: &mut Reply, day: &mut DayText, stamp: Stamp) -> Result<(), AllocError>
    ensures ok { OnOk result ((columns : List Column) → out.new ≡ out.old ++ entry_line columns (stamp, None)) }
    ensures err { OnErr result (Extends out.old out.new) }
{
    day.say(out, stamp)?;
    out.extend_from_slice(b"none\n")
}

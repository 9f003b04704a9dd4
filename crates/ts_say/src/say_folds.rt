// What an aggregate list makes of elements, and rows of numbers, said in lines.
ghost use Rattle.std.specs.Prelude.{◌≡◌, ◌↔◌, ◌⊎◌, ◌≤◌, [], ◌∷◌, ◌++◌, All, IsTrue, OnOk, OnErr, length, map};
ghost use Rattle.ts_expr.specs.Aggregates.{most_scale};
ghost use Rattle.ts_row.specs.Row.{value_text, Extends};
ghost use Rattle.ts_running.specs.Binding.{value_if_any, numbers_row};
ghost use Rattle.ts_answer.specs.Reply.{scaled_text, folded_line, folded_text, series_folded_line};

use crate::day_text::DayText;
use crate::say_numbers::say_scaled;
use crate::say_rows::say_value;
use crate::say_values::{say_count, say_null, say_quoted};
use std::alloc::AllocError;
use ts_base::{Key, Reply, Stamp};
use ts_entry::ElementVisitor;
use ts_row::{Row, Value};
use ts_running::NumbersVisitor;

/// The lines of what a list makes, behind what a reply has said: each element that it is handed, or row of numbers, is
/// said in a line of its own, its numbers with as many digits after the point as the list's items have.
#[derive(Drop)]
pub struct FoldedLines<'a> {
    out: &'a mut Reply,
    scales: &'a [u8],
    day: DayText,
    ghost most: { All (λ s. s ≤ most_scale) scales.now },
}

impl<'a> FoldedLines<'a> {
    /// None so far.
    pub fn behind(out: &'a mut Reply, scales: &'a [u8]) -> FoldedLines<'a>
        requires { All (λ s. s ≤ most_scale) scales.now }
        ensures same { result.out.ghost_name ≡ out.entry.ghost_name }
        ensures none { result.out.now ≡ out.old }
        ensures scales { result.scales.now ≡ scales.now }
    {
        FoldedLines {
            out,
            scales,
            day: DayText::first(),
        }
    }
}

impl<'a> ElementVisitor for FoldedLines<'a> {
    ghost use Rattle.std.specs.Prelude.{◌≡◌, ◌++◌, List};
    ghost use Rattle.std.specs.List.{flat_map};
    ghost use Rattle.std.proofs.Common.{refl, sym, ◌∙◌, append-nil};
    ghost use Rattle.ts_answer.specs.Reply.{folded_line};
    ghost use Rattle.ts_say.specs.Folded.{folded_then};

    ghost took = { λ v es w. (w.out.ghost_name ≡ v.out.ghost_name) × (w.scales.now ≡ v.scales.now)
        × (w.out.now ≡ v.out.now ++ flat_map (folded_line v.scales.now) es) };

    fn element(&mut self, stamp: Stamp, row: &Row) -> Result<(), AllocError> {
        say_folded_line(self.out, &mut self.day, self.scales, stamp, row)
    }

    ghost none = { λ v. (refl, refl, sym (append-nil v.out.now)) };

    ghost then = { λ a b c es fs p q. (
      q.0 ∙ p.0,
      q.1 ∙ p.1,
      folded_then a.scales.now b.scales.now a.out.now b.out.now c.out.now es fs p.1 p.2 q.2,
    ) };
}

impl<'a> NumbersVisitor for FoldedLines<'a> {
    ghost use Rattle.std.specs.Prelude.{◌≡◌, ◌++◌, List};
    ghost use Rattle.std.specs.List.{flat_map};
    ghost use Rattle.std.proofs.Common.{refl, sym, ◌∙◌, append-nil};
    ghost use Rattle.ts_answer.specs.Reply.{folded_line};
    ghost use Rattle.ts_say.specs.Folded.{folded_then};

    ghost took = { λ v es w. (w.out.ghost_name ≡ v.out.ghost_name) × (w.scales.now ≡ v.scales.now)
        × (w.out.now ≡ v.out.now ++ flat_map (folded_line v.scales.now) es) };

    fn numbers(&mut self, stamp: Stamp, numbers: &[Option<i128>]) -> Result<(), AllocError> {
        say_numbers_line(self.out, &mut self.day, self.scales, stamp, numbers)
    }

    ghost none = { λ v. (refl, refl, sym (append-nil v.out.now)) };

    ghost then = { λ a b c es fs p q. (
      q.0 ∙ p.0,
      q.1 ∙ p.1,
      folded_then a.scales.now b.scales.now a.out.now b.out.now c.out.now es fs p.1 p.2 q.2,
    ) };
}

/// Says what a list makes of elements as one row, and that it is one.
#[tactic(auto, unfolding(ts_answer::specs::Reply::folded_text))]
pub fn say_folded(out: &mut Reply, scales: &[u8], stamp: Stamp, row: &Row) -> Result<(), AllocError>
    requires { All (λ s. s ≤ most_scale) scales.now }
    ensures ok { OnOk result (out.new ≡ out.old ++ folded_text scales.now ((stamp, row.now) ∷ [])) }
    ensures err { OnErr result (Extends out.old out.new) }
{
    let mut day = DayText::first();
    say_folded_line(out, &mut day, scales, stamp, row)?;
    say_count(out, 1)
}

/// Says what a list makes of a series in a line.
#[tactic(auto, unfolding(ts_answer::specs::Reply::series_folded_line))]
pub fn say_series_folded(
    out: &mut Reply,
    key: &Key,
    scales: &[u8],
    row: &Row,
) -> Result<(), AllocError>
    requires { All (λ s. s ≤ most_scale) scales.now }
    ensures ok { OnOk result (out.new ≡ out.old ++ series_folded_line scales.now (key.now, row.now)) }
    ensures err { OnErr result (Extends out.old out.new) }
{
    out.extend_from_slice(b"'")?;
    say_quoted(out, key.as_slice())?;
    out.extend_from_slice(b"' ")?;
    say_scaled_values(out, scales, row.values())
}

// Says what a list makes of elements in a line.
#[tactic(auto, unfolding(ts_answer::specs::Reply::folded_line))]
fn say_folded_line(
    out: &mut Reply,
    day: &mut DayText,
    scales: &[u8],
    stamp: Stamp,
    row: &Row,
) -> Result<(), AllocError>
    requires { All (λ s. s ≤ most_scale) scales.now }
    ensures ok { OnOk result (out.new ≡ out.old ++ folded_line scales.now (stamp, row.now)) }
    ensures err { OnErr result (Extends out.old out.new) }
{
    day.say(out, stamp)?;
    say_scaled_values(out, scales, row.values())
}

// Says a row of numbers in a line.
#[tactic(auto, unfolding(ts_answer::specs::Reply::folded_line))]
fn say_numbers_line(
    out: &mut Reply,
    day: &mut DayText,
    scales: &[u8],
    stamp: Stamp,
    numbers: &[Option<i128>],
) -> Result<(), AllocError>
    requires { All (λ s. s ≤ most_scale) scales.now }
    ensures ok { OnOk result (out.new ≡ out.old ++ folded_line scales.now (stamp, numbers_row numbers.now)) }
    ensures err { OnErr result (Extends out.old out.new) }
{
    day.say(out, stamp)?;
    say_scaled_numbers(out, scales, numbers)
}

// Says numbers, each with as many digits after the point as its scale, with commas between them, none as NULL; and a
// line feed.
fn say_scaled_numbers(
    out: &mut Reply,
    scales: &[u8],
    numbers: &[Option<i128>],
) -> Result<(), AllocError>
    requires { All (λ s. s ≤ most_scale) scales.now }
    ensures ok { OnOk result (out.new ≡ out.old ++ scaled_text scales.now (map value_if_any numbers.now) ++ 10 ∷ []) }
    ensures err { OnErr result (Extends out.old out.new) }
{
    let Some((scale, scales)) = scales.split_first() else {
        return out.push(b'\n');
    };
    let Some((number, numbers)) = numbers.split_first() else {
        return out.push(b'\n');
    };
    if is_end(scales, numbers) {
        return say_number_if_any(out, *number, *scale as u32, b'\n');
    }
    say_number_if_any(out, *number, *scale as u32, b',')?;
    say_scaled_numbers(out, scales, numbers)
}

// Says a number with so many digits after the point, or NULL where there is none, and a byte behind it.
fn say_number_if_any(
    out: &mut Reply,
    number: Option<i128>,
    scale: u32,
    behind: u8,
) -> Result<(), AllocError>
    requires { scale ≤ most_scale }
    ensures ok { OnOk result (out.new ≡ out.old ++ value_text scale (value_if_any number) ++ behind ∷ []) }
    ensures err { OnErr result (Extends out.old out.new) }
{
    match number {
        None => say_null(out, behind),
        Some(number) => say_scaled(out, number, scale, behind),
    }
}

// Says values, each number with as many digits after the point as its scale, with commas between them, and a line feed.
fn say_scaled_values(out: &mut Reply, scales: &[u8], values: &[Value]) -> Result<(), AllocError>
    requires { All (λ s. s ≤ most_scale) scales.now }
    ensures ok { OnOk result (out.new ≡ out.old ++ scaled_text scales.now values.now ++ 10 ∷ []) }
    ensures err { OnErr result (Extends out.old out.new) }
{
    let Some((scale, scales)) = scales.split_first() else {
        return out.push(b'\n');
    };
    let Some((value, values)) = values.split_first() else {
        return out.push(b'\n');
    };
    if is_end(scales, values) {
        return say_value(out, value, *scale as u32, b'\n');
    }
    say_value(out, value, *scale as u32, b',')?;
    say_scaled_values(out, scales, values)
}

// Whether there are no scales or no values.
fn is_end<T>(scales: &[u8], values: &[T]) -> bool
    ensures { IsTrue result ↔ (length scales.now ≡ 0) ⊎ (length values.now ≡ 0) }
{
    scales.is_empty() || values.is_empty()
}

// The routine of each command, by what the command works on.
ghost use Rattle.std.specs.Prelude.{◌≡◌, ◌≢◌, ◌≤◌, ℕ, [], IfSome, IsNone, length};
ghost use Rattle.ts_command.specs.Form.{HasForm};
ghost use Rattle.ts_answer.specs.View.{view, IsSeen};
ghost use Rattle.ts_answer.specs.CarriedOut.{CarriedOut, ReadOut};
ghost use Rattle.ts_answer.specs.Reading.{IsKept, IsSaid};
ghost use Rattle.ts_hidden.specs.Hidden.{IsCountShown};
ghost use Rattle.ts_model.specs.declared.kind.Kind.{Kind as TheKind};
ghost use Rattle.ts_model.specs.declared.kind.Kind.TheVariants.{Pattern as Patterns, Calendar as Calendars};
ghost use Rattle.ts_model.specs.Definitions.{container_slots};
ghost use Rattle.ts_layout.specs.Meaning.{sum_of_quotas};
ghost use Rattle.ts_container.specs.KeptCharges.{AreCharges};
ghost use Rattle.ts_engine.specs.Work.{Defines, Elements, Readings, Combinations, Aggregates, Memory, work_of, IsGiven};
ghost use Rattle.ts_engine.specs.Work.{IsDecided};

use std::alloc::Global;
use std::thread::Threads;
use ts_answer::{Effect, Stop};
use ts_base::{Reply, Trouble};
use ts_combined_rows::{aggregate_all, join, lag};
use ts_command::Command;
use ts_container::Charges;
use ts_define::{
    drop_definition, joined_calendar, joined_pattern, new_calendar, new_container, new_irregular,
    new_pattern, new_regular, new_row_type, turned_pattern,
};
use ts_elements::{
    delete_element, delete_range, drop_series, edit_element, get_element, get_first_element,
    get_last_element, mark_element,
};
use ts_model::{Def, Defs, Kind};
use ts_page::{Page, Pages};
use ts_pattern::Junction;
use ts_rolling_edits::{rolling_drop, rolling_put};
use ts_rolling_sets::{clip_set, new_set};
use ts_series::EditKind;
use ts_series_rows::{
    Choice, aggregate_by, aggregate_range, apply_list, count_clip, read_entries, running_avg,
    running_sum,
};
use ts_space::Space;
use ts_tell::{
    cal_index, cal_range, cal_stamp, container_usage, count_elements, list_series, show_calendar,
    show_pattern,
};

/// Carries out a command that changes elements; none for another one. `page` is room to read one.
pub(crate) fn edit<P: Pages>(
    alloc: Global,
    pages: &mut P,
    page: &mut Page,
    defs: &Defs,
    space: &Space,
    charges: &Charges,
    command: &Command,
    out: &mut Reply,
) -> Option<Result<Effect, Stop>>
    requires given { IsGiven P.tells (view defs.now.definitions space.now (P.contents pages.old)) charges.now out.old }
    requires form { HasForm command.now }
    ensures carried { IfSome result (λ came. CarriedOut P.tells command.now came out.new
        (view defs.now.definitions space.now (P.contents pages.old)) (P.contents pages.new)) }
    ensures none { IsNone result → (work_of command.now ≢ Elements) × (pages.new ≡ pages.old) × (out.new ≡ []) }
    ensures undisturbed { P.undisturbed pages.old pages.new }
{
    let came = match command {
        Command::DropSeries { key } => { drop_series(alloc, pages, page, defs, space, key, out) }
        Command::PutElem { key, stamp, values } => {
            let edit = EditKind::Put;
            edit_element(
                pages, page, defs, space, charges, edit, key, *stamp, values, out,
            )
        }
        Command::PutElemNoDups { key, stamp, values } => {
            let edit = EditKind::PutNoDups;
            edit_element(
                pages, page, defs, space, charges, edit, key, *stamp, values, out,
            )
        }
        Command::InsElem { key, stamp, values } => {
            let edit = EditKind::Insert;
            edit_element(
                pages, page, defs, space, charges, edit, key, *stamp, values, out,
            )
        }
        Command::UpdElem { key, stamp, values } => {
            let edit = EditKind::Update;
            edit_element(
                pages, page, defs, space, charges, edit, key, *stamp, values, out,
            )
        }
        Command::DelElem { key, stamp } => {
            delete_element(pages, page, defs, space, key, *stamp, out)
        }
        Command::DelClip { key, from, to } => {
            delete_range(alloc, pages, page, defs, space, key, *from, *to, out)
        }
        Command::RollingPut { set, stamp, values } => {
            rolling_put(
                alloc, pages, page, defs, space, charges, set, *stamp, values, out,
            )
        }
        Command::RollingDrop { set } => { rolling_drop(alloc, pages, page, defs, space, set, out) }
        Command::HideElem { key, stamp } => {
            mark_element(pages, page, defs, space, true, key, *stamp, out)
        }
        Command::RevealElem { key, stamp } => {
            mark_element(pages, page, defs, space, false, key, *stamp, out)
        }
        _ => return None,
    };
    Some(came)
}

/// Answers a command that reads a series; none for another one. `shown` may tell that no element is hidden of the series
/// whose entries it counts. `page` is room to read one.
pub(crate) fn read<P: Pages>(
    alloc: Global,
    pages: &mut P,
    page: &mut Page,
    defs: &Defs,
    space: &Space,
    command: &Command,
    shown: bool,
    out: &mut Reply,
) -> Option<Result<(), Stop>>
    requires seen { IsSeen P.tells (view defs.now.definitions space.now (P.contents pages.old)) }
    requires shown { IsCountShown shown P.tells command.now
        (view defs.now.definitions space.now (P.contents pages.old)) }
    requires form { HasForm command.now }
    requires empty { out.old ≡ [] }
    ensures read { IfSome result
        (λ came. ReadOut P.tells command.now came out.new (view defs.now.definitions space.now (P.contents pages.old))
        (P.contents pages.new)) }
    ensures none { IsNone result → (work_of command.now ≢ Readings) × (pages.new ≡ pages.old) × (out.new ≡ []) }
    ensures undisturbed { P.undisturbed pages.old pages.new }
{
    let came = match command {
        Command::GetElem { key, stamp } => {
            get_element(alloc, pages, page, defs, space, key, *stamp, out)
        }
        Command::GetFirstElem { key } => {
            get_first_element(alloc, pages, page, defs, space, key, out)
        }
        Command::GetLastElem { key } => {
            get_last_element(alloc, pages, page, defs, space, key, out)
        }
        Command::GetNthElem { key, index } => {
            let one = Choice::Number(*index);
            read_entries(pages, page, defs, space, key, one, shown, out)
        }
        Command::Clip { key, from, to } => {
            let range = Choice::Range(*from, *to);
            read_entries(pages, page, defs, space, key, range, false, out)
        }
        Command::RollingClip { set, from, to } => {
            clip_set(alloc, pages, page, defs, space, set, *from, *to, out)
        }
        Command::ClipCount { key, stamp, count } => {
            let some = Choice::Count(*stamp, *count);
            read_entries(pages, page, defs, space, key, some, false, out)
        }
        Command::ClipGetCount { key, from, to } => {
            count_clip(pages, page, defs, space, key, *from, *to, shown, out)
        }
        _ => return None,
    };
    Some(came)
}

/// Answers a command that combines the elements of two series, or of one with itself; none for another one. `page` is
/// room to read one.
pub(crate) fn combine<P: Pages>(
    alloc: Global,
    pages: &mut P,
    page: &mut Page,
    defs: &Defs,
    space: &Space,
    command: &Command,
    out: &mut Reply,
) -> Option<Result<(), Stop>>
    requires seen { IsSeen P.tells (view defs.now.definitions space.now (P.contents pages.old)) }
    requires form { HasForm command.now }
    requires empty { out.old ≡ [] }
    ensures read { IfSome result
        (λ came. ReadOut P.tells command.now came out.new (view defs.now.definitions space.now (P.contents pages.old))
        (P.contents pages.new)) }
    ensures none { IsNone result → (work_of command.now ≢ Combinations) × (pages.new ≡ pages.old) × (out.new ≡ []) }
    ensures undisturbed { P.undisturbed pages.old pages.new }
{
    let came = match command {
        Command::Union {
            first,
            second,
            from,
            to,
        } => {
            let either = Junction::Or;
            join(
                alloc, pages, page, defs, space, either, first, second, *from, *to, out,
            )
        }
        Command::Intersect {
            first,
            second,
            from,
            to,
        } => {
            let both = Junction::And;
            join(
                alloc, pages, page, defs, space, both, first, second, *from, *to, out,
            )
        }
        Command::Lag { key, by } => lag(pages, page, defs, space, key, *by, out),
        _ => return None,
    };
    Some(came)
}

/// Answers a command that folds the elements of series by an aggregate list, or makes a row of each; none for another
/// one. `page` is room to read one.
pub(crate) fn aggregate<P: Pages>(
    rt: &(impl Threads + Sync),
    alloc: Global,
    pages: &mut P,
    page: &mut Page,
    defs: &Defs,
    space: &Space,
    command: &Command,
    out: &mut Reply,
) -> Option<Result<(), Stop>>
    requires seen { IsSeen P.tells (view defs.now.definitions space.now (P.contents pages.old)) }
    requires form { HasForm command.now }
    requires empty { out.old ≡ [] }
    ensures read { IfSome result (λ came. ReadOut P.tells command.now came out.new
        (view defs.now.definitions space.now (P.contents pages.old)) (P.contents pages.new)) }
    ensures none { IsNone result → (work_of command.now ≢ Aggregates) × (pages.new ≡ pages.old) × (out.new ≡ []) }
    ensures undisturbed { P.undisturbed pages.old pages.new }
{
    let came = match command {
        Command::AggregateBy {
            text,
            calendar,
            key,
            from,
            to,
        } => aggregate_by(
            alloc, pages, page, defs, space, text, calendar, key, *from, *to, out,
        ),
        Command::AggregateRange {
            text,
            key,
            from,
            to,
        } => aggregate_range(alloc, pages, page, defs, space, text, key, *from, *to, out),
        Command::AggregateAll {
            text,
            container,
            from,
            to,
        } => aggregate_all(
            rt, alloc, pages, page, defs, space, text, container, *from, *to, out,
        ),
        Command::TSRunningSum {
            text,
            key,
            span,
            from,
            to,
        } => running_sum(
            alloc, pages, page, defs, space, text, key, *span, *from, *to, out,
        ),
        Command::TSRunningAvg {
            text,
            key,
            span,
            from,
            to,
        } => running_avg(
            alloc, pages, page, defs, space, text, key, *span, *from, *to, out,
        ),
        Command::Apply {
            text,
            key,
            from,
            to,
        } => apply_list(alloc, pages, page, defs, space, text, key, *from, *to, out),
        _ => return None,
    };
    Some(came)
}

/// Answers a command that reads what is in memory; none for another one.
pub(crate) fn tell(
    alloc: Global,
    defs: &Defs,
    space: &Space,
    charges: &Charges,
    command: &Command,
    out: &mut Reply,
) -> Option<Result<(), Trouble>>
    requires form { HasForm command.now }
    requires kept { IsKept defs.now.definitions space.now }
    requires charged { AreCharges charges.now defs.now.definitions space.now }
    requires empty { out.old ≡ [] }
    ensures said { IfSome result (λ came. IsSaid command.now came out.new defs.now.definitions space.now) }
    ensures none { IsNone result → (work_of command.now ≢ Memory) × (out.new ≡ []) }
{
    let came = match command {
        Command::ShowPattern { name } => show_pattern(alloc, defs, name, out),
        Command::ShowCalendar { name } => show_calendar(alloc, defs, name, out),
        Command::CalIndex { calendar, from, to } => { cal_index(defs, calendar, *from, *to, out) }
        Command::CalStamp {
            calendar,
            after,
            count,
        } => cal_stamp(defs, calendar, *after, *count, out),
        Command::CalRange { calendar, from, to } => { cal_range(defs, calendar, *from, *to, out) }
        Command::TSContainerUsage { name } => container_usage(defs, space, charges, name, out),
        Command::ListSeries { container } => list_series(defs, space, container, out),
        Command::GetNelems { key } => count_elements(defs, space, key, out),
        _ => return None,
    };
    Some(came)
}

/// Decides on a command that makes or drops a definition, where there are so many element pages: its kind, and a slot
/// of this and what goes there, or a refusal.
pub(crate) fn decide(
    alloc: Global,
    defs: &Defs,
    pages: u32,
    command: &Command,
) -> (Kind, Result<(u16, Option<Def>), Trouble>)
    requires work { (kind : TheKind) × (work_of command.now ≡ Defines kind) }
    requires form { HasForm command.now }
    requires slots { length defs.now.definitions.containers ≡ container_slots }
    requires granted { sum_of_quotas defs.now.definitions.containers ≤ pages }
    ensures { IsDecided result.0 command.now result.1 defs.now.definitions pages }
{
    if let Some(decided) = decide_pattern(alloc, defs, command) {
        return (Kind::Pattern, decided);
    }
    if let Some(decided) = decide_calendar(alloc, defs, command) {
        return (Kind::Calendar, decided);
    }
    match command {
        Command::CreateRowType {
            name,
            stamp,
            columns,
        } => (
            Kind::RowType,
            new_row_type(alloc, defs, name, stamp, columns),
        ),
        Command::DropRowType { name } => {
            let kind = Kind::RowType;
            (kind, drop_definition(defs, kind, name))
        }
        Command::TSContainerCreate {
            name,
            row_type,
            quota,
        } => (
            Kind::Container,
            new_container(defs, pages, name, row_type, *quota),
        ),
        Command::TSContainerDestroy { name } => {
            let kind = Kind::Container;
            (kind, drop_definition(defs, kind, name))
        }
        Command::TSCreate {
            key,
            calendar,
            origin,
            container,
        } => (
            Kind::Series,
            new_regular(defs, key, calendar, *origin, container),
        ),
        Command::TSCreateIrr { key, container } => {
            (Kind::Series, new_irregular(defs, key, container))
        }
        Command::RollingCreate {
            set,
            calendar,
            origin,
            container,
            kept,
        } => (
            Kind::Series,
            new_set(alloc, defs, set, calendar, *origin, container, *kept),
        ),
        _ => unreachable!(),
    }
}

// The same of a pattern; none for another command.
fn decide_pattern(
    alloc: Global,
    defs: &Defs,
    command: &Command,
) -> Option<Result<(u16, Option<Def>), Trouble>>
    requires form { HasForm command.now }
    ensures decided { IfSome result (λ decided. (pages : ℕ)
        → IsDecided Patterns command.now decided defs.now.definitions pages) }
    ensures none { IsNone result → work_of command.now ≢ Defines Patterns }
{
    let decided = match command {
        Command::CreatePattern { name, text } => new_pattern(alloc, defs, name, text),
        Command::NotOp { name, pattern } => turned_pattern(defs, name, pattern),
        Command::AndPatterns {
            name,
            first,
            second,
        } => joined_pattern(defs, Junction::And, name, first, second),
        Command::OrPatterns {
            name,
            first,
            second,
        } => joined_pattern(defs, Junction::Or, name, first, second),
        Command::DropPattern { name } => drop_definition(defs, Kind::Pattern, name),
        _ => return None,
    };
    Some(decided)
}

// The same of a calendar.
fn decide_calendar(
    alloc: Global,
    defs: &Defs,
    command: &Command,
) -> Option<Result<(u16, Option<Def>), Trouble>>
    requires form { HasForm command.now }
    ensures decided { IfSome result (λ decided. (pages : ℕ)
        → IsDecided Calendars command.now decided defs.now.definitions pages) }
    ensures none { IsNone result → work_of command.now ≢ Defines Calendars }
{
    let decided = match command {
        Command::CreateCalendar { name, text } => new_calendar(alloc, defs, name, text),
        Command::AndCalendars {
            name,
            first,
            second,
        } => joined_calendar(alloc, defs, Junction::And, name, first, second),
        Command::OrCalendars {
            name,
            first,
            second,
        } => joined_calendar(alloc, defs, Junction::Or, name, first, second),
        Command::DropCalendar { name } => drop_definition(defs, Kind::Calendar, name),
        _ => return None,
    };
    Some(decided)
}

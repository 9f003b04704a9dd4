// The statements of definitions, printed: kind by kind, each in the order of the names.
ghost use Rattle.std.specs.Prelude.{◌≡◌, ◌<◌, ◌++◌, OnOk, IfOk, option_copied, option_map, option_and_then};
ghost use Rattle.ts_model.specs.Definitions.{CalendarDef, IsDefinitions, at_slot, limit, pattern_reference, references};
ghost use Rattle.ts_layout.specs.Meaning.{AreThere, IsThere, def_at, part_of};
ghost use Rattle.ts_dump.specs.Chosen.{IsWithin, texts_defined};
ghost use Rattle.ts_dump.specs.Listed.{name_in, calendar_as, text_of_def, text_at, text_in, texts_of_kind};
ghost use Rattle.ts_dump.specs.Listed.{definition_texts, texts_under, found_by, row_type_of, pattern_of, container_of};
ghost use Rattle.ts_dump.specs.Listed.{calendar_of, row_type_slot, pattern_slot, container_slot, calendar_slot};
ghost use Rattle.ts_dump.specs.Placed.{ArePut};

use crate::choice::Choice;
use crate::grouping::Grouping;
use crate::texts::{
    print_calendar_statement, print_container, print_irregular, print_pattern_statement,
    print_regular, print_row_type,
};
use std::alloc::{AllocError, Global};
use ts_base::{Bytes, Key, Name, Stamp};
use ts_calendar::{Calendar, CalendarText, PatternPart};
use ts_model::{Def, Defs, Kind};

/// Puts the statements of the definitions that were chosen, each in a line.
pub(crate) fn print_chosen(
    alloc: Global,
    defs: &Defs,
    choice: Choice,
    grouping: &mut Grouping,
    out: &mut Bytes,
) -> Result<(), AllocError>
    requires within { IsWithin choice }
    requires there { AreThere defs.now.definitions }
    requires rules { IsDefinitions defs.now.definitions }
    ensures { OnOk result (ArePut grouping.old (texts_defined defs.now.definitions choice) grouping.new out.old out.new) }
{
    match choice {
        Choice::All | Choice::DefinitionsAlone => print_definitions(alloc, defs, grouping, out),
        Choice::Series { slot } => print_under(alloc, defs, slot, grouping, out),
    }
}

// Puts those of all definitions.
fn print_definitions(
    alloc: Global,
    defs: &Defs,
    grouping: &mut Grouping,
    out: &mut Bytes,
) -> Result<(), AllocError>
    requires there { AreThere defs.now.definitions }
    ensures { OnOk result (ArePut grouping.old (definition_texts defs.now.definitions) grouping.new out.old out.new) }
{
    print_all(alloc, defs, Kind::RowType, grouping, out)?;
    print_all(alloc, defs, Kind::Pattern, grouping, out)?;
    print_all(alloc, defs, Kind::Calendar, grouping, out)?;
    print_all(alloc, defs, Kind::Container, grouping, out)?;
    print_all(alloc, defs, Kind::Series, grouping, out)
}

// Puts those that the series in a slot stands on, and its own.
fn print_under(
    alloc: Global,
    defs: &Defs,
    series: u16,
    grouping: &mut Grouping,
    out: &mut Bytes,
) -> Result<(), AllocError>
    requires slot { series < limit Kind.Series }
    requires there { AreThere defs.now.definitions }
    requires rules { IsDefinitions defs.now.definitions }
    ensures { OnOk result (ArePut grouping.old (texts_under defs.now.definitions series) grouping.new out.old out.new) }
{
    print_in(
        alloc,
        defs,
        Kind::RowType,
        row_type_slot(defs, series),
        grouping,
        out,
    )?;
    print_in(
        alloc,
        defs,
        Kind::Pattern,
        pattern_slot(defs, series),
        grouping,
        out,
    )?;
    print_in(
        alloc,
        defs,
        Kind::Calendar,
        calendar_slot(defs, series),
        grouping,
        out,
    )?;
    print_in(
        alloc,
        defs,
        Kind::Container,
        container_slot(defs, series),
        grouping,
        out,
    )?;
    print_slot(alloc, defs, Kind::Series, series, grouping, out)
}

// Puts those of a kind, in the order of their names.
fn print_all(
    alloc: Global,
    defs: &Defs,
    kind: Kind,
    grouping: &mut Grouping,
    out: &mut Bytes,
) -> Result<(), AllocError>
    requires there { AreThere defs.now.definitions }
    ensures { OnOk result (ArePut grouping.old (texts_of_kind kind defs.now.definitions) grouping.new out.old out.new) }
{
    for slot in defs.in_order(kind) {
        print_slot(alloc, defs, kind, *slot, grouping, out)?;
    }
    Ok(())
}

// Puts the one in a slot, if a slot is given and one stands there.
fn print_in(
    alloc: Global,
    defs: &Defs,
    kind: Kind,
    slot: Option<u16>,
    grouping: &mut Grouping,
    out: &mut Bytes,
) -> Result<(), AllocError>
    requires there { AreThere defs.now.definitions }
    requires rules { IsDefinitions defs.now.definitions }
    ensures { OnOk result (ArePut grouping.old (text_in kind defs.now.definitions slot) grouping.new out.old out.new) }
{
    match slot {
        Some(slot) if slot < kind.limit() => print_slot(alloc, defs, kind, slot, grouping, out),
        _ => Ok(()),
    }
}

// Puts the one in a slot, if one stands there.
fn print_slot(
    alloc: Global,
    defs: &Defs,
    kind: Kind,
    slot: u16,
    grouping: &mut Grouping,
    out: &mut Bytes,
) -> Result<(), AllocError>
    requires slot { slot < limit kind }
    requires there { AreThere defs.now.definitions }
    requires rules { IsDefinitions defs.now.definitions }
    ensures { OnOk result (ArePut grouping.old (text_at kind defs.now.definitions slot) grouping.new out.old out.new) }
{
    let Some(def) = defs.get(kind, slot) else {
        return Ok(());
    };
    grouping.begin(out)?;
    print_definition(alloc, defs, def, out)?;
    out.push(b'\n')
}

// Puts the statement of a definition.
fn print_definition(
    alloc: Global,
    defs: &Defs,
    def: &Def,
    out: &mut Bytes,
) -> Result<(), AllocError>
    requires there { IsThere defs.now.definitions (references def.now) }
    requires rules { IsDefinitions defs.now.definitions }
    ensures { OnOk result (out.new ≡ out.old ++ text_of_def defs.now.definitions def.now) }
{
    match def {
        Def::RowType { name, kind } => print_row_type(name, kind, out),
        Def::Pattern { name, pattern } => print_pattern_statement(alloc, name, pattern, out),
        Def::Calendar { name, calendar, by } => {
            print_calendar(alloc, defs, name, calendar.calendar(), *by, out)
        }
        Def::Container {
            name,
            row_type,
            quota,
        } => print_container(
            name,
            name_in(defs, Kind::RowType, *row_type as u16),
            *quota,
            out,
        ),
        Def::Series {
            key,
            container,
            regular,
        } => print_series(defs, key, *container, *regular, out),
    }
}

// Puts that of a series.
fn print_series(
    defs: &Defs,
    key: &Key,
    container: u8,
    regular: Option<(u8, Stamp)>,
    out: &mut Bytes,
) -> Result<(), AllocError>
    requires rules { IsDefinitions defs.now.definitions }
    ensures { OnOk result (out.new ≡ out.old
        ++ text_of_def defs.now.definitions (Def.Series key.now container regular)) }
{
    let container = name_in(defs, Kind::Container, container as u16);
    match regular {
        None => print_irregular(key, container, out),
        Some((calendar, origin)) => {
            let calendar = name_in(defs, Kind::Calendar, calendar as u16);
            print_regular(key, calendar, origin, container, out)
        }
    }
}

// Puts that of a calendar, with its pattern or the name of the one by whose name it was made.
fn print_calendar(
    alloc: Global,
    defs: &Defs,
    name: &Name,
    calendar: &Calendar,
    by: Option<u8>,
    out: &mut Bytes,
) -> Result<(), AllocError>
    requires there { IsThere defs.now.definitions (pattern_reference by) }
    ensures { OnOk result (out.new ≡ out.old
        ++ text_of_def defs.now.definitions (Def.Calendar name.now calendar.now by)) }
{
    let text = CalendarText {
        start: calendar.start(),
        patt_start: calendar.patt_start(),
        part: part_in(defs, calendar, by)?,
    };
    print_calendar_statement(alloc, name, &text, out)
}

// The part of a calendar's text that gives its pattern: by name, where it was made by one, else its own.
fn part_in(defs: &Defs, calendar: &Calendar, by: Option<u8>) -> Result<PatternPart, AllocError>
    ensures { IfOk result (λ part. (c : CalendarDef) → c.calendar ≡ calendar.now
        → IsThere defs.now.definitions (pattern_reference by) → part ≡ part_of defs.now.definitions c by) }
{
    match pattern_name(defs, by) {
        Some(name) => Ok(PatternPart::Named(name.copy()?)),
        None => Ok(PatternPart::Own(calendar.pattern().copy()?)),
    }
}

// The name of the pattern in a slot, if one is given.
fn pattern_name(defs: &Defs, by: Option<u8>) -> Option<&Name>
    ensures { option_copied result
        ≡ option_and_then (λ slot. option_map (λ p. p.name) (at_slot slot defs.now.definitions.patterns)) by }
{
    match defs.get(Kind::Pattern, by? as u16) {
        Some(Def::Pattern { name, .. }) => Some(name),
        _ => None,
    }
}

// The name of what stands in a slot of a kind; nothing where nothing does.
fn name_in(defs: &Defs, kind: Kind, slot: u16) -> &[u8]
    requires rules { IsDefinitions defs.now.definitions }
    ensures { result.now ≡ name_in kind slot defs.now.definitions }
{
    match def_in(defs, kind, slot) {
        Some(def) => def.name(),
        None => &[],
    }
}

// What stands in a slot of a kind, where there is such a slot.
fn def_in(defs: &Defs, kind: Kind, slot: u16) -> Option<&Def>
    requires rules { IsDefinitions defs.now.definitions }
    ensures { option_copied result ≡ def_at kind slot defs.now.definitions }
{
    if slot >= kind.limit() {
        return None;
    }
    defs.get(kind, slot)
}

// The slot of the container of a series.
fn container_slot(defs: &Defs, series: u16) -> Option<u16>
    requires rules { IsDefinitions defs.now.definitions }
    ensures { result ≡ container_slot defs.now.definitions series }
{
    match def_in(defs, Kind::Series, series)? {
        Def::Series { container, .. } => Some(*container as u16),
        _ => None,
    }
}

// That of the row type of its container.
fn row_type_slot(defs: &Defs, series: u16) -> Option<u16>
    requires rules { IsDefinitions defs.now.definitions }
    ensures { result ≡ row_type_slot defs.now.definitions series }
{
    match def_in(defs, Kind::Container, container_slot(defs, series)?)? {
        Def::Container { row_type, .. } => Some(*row_type as u16),
        _ => None,
    }
}

// That of its calendar, where it is regular.
fn calendar_slot(defs: &Defs, series: u16) -> Option<u16>
    requires rules { IsDefinitions defs.now.definitions }
    ensures { result ≡ calendar_slot defs.now.definitions series }
{
    match def_in(defs, Kind::Series, series)? {
        Def::Series {
            regular: Some((calendar, _)),
            ..
        } => Some(*calendar as u16),
        _ => None,
    }
}

// That of the pattern by whose name its calendar was made.
fn pattern_slot(defs: &Defs, series: u16) -> Option<u16>
    requires rules { IsDefinitions defs.now.definitions }
    ensures { result ≡ pattern_slot defs.now.definitions series }
{
    match def_in(defs, Kind::Calendar, calendar_slot(defs, series)?)? {
        Def::Calendar { by: Some(by), .. } => Some(*by as u16),
        _ => None,
    }
}

// Statements about row types, containers and series, and the commands that they are.
use std::alloc::{AllocError, Global};
use ts_base::{Refusal, Trouble};
use ts_command::{Columns, Command, Literals, read_command};
use ts_row::{Column, ColumnKind, Literal};

// A command as a row of a table has it: its routine, its name or key, a second one or its calendar if it has one, and
// the rest.
pub(crate) type Row = (&'static str, &'static [u8], &'static [u8], Rest);

#[derive(Clone, Copy)]
pub(crate) enum Rest {
    Nothing,
    Name(&'static [u8]),
    Text(&'static [u8]),
    Number(i64),
    Stamp(i64),
    Stamps(i64, i64),
    List(&'static [u8], i64, i64),
    Span(&'static [u8], i64, (i64, i64)),
    StampAndName(i64, &'static [u8]),
    StampAndNumber(i64, i64),
    Set(i64, &'static [u8], i64),
    Values(i64, &'static [Value]),
    Columns(&'static [(&'static [u8], ColumnKind)]),
}

#[derive(Clone, Copy)]
pub(crate) enum Value {
    Null,
    Number(i128, u8),
    Text(&'static [u8]),
}

pub(crate) fn is_row(command: &Command, row: Row) -> bool {
    let (routine, first, second, rest) = row;
    routine_of(command) == routine
        && first_of(command) == first
        && second_of(command) == second
        && is_rest(command, rest)
}

fn routine_of(command: &Command) -> &'static str {
    match command {
        Command::CreateRowType { .. } => "CreateRowType",
        Command::DropRowType { .. } => "DropRowType",
        Command::CreatePattern { .. } => "CreatePattern",
        Command::NotOp { .. } => "NotOp",
        Command::AndPatterns { .. } => "AndPatterns",
        Command::OrPatterns { .. } => "OrPatterns",
        Command::AndCalendars { .. } => "AndCalendars",
        Command::OrCalendars { .. } => "OrCalendars",
        Command::ShowPattern { .. } => "ShowPattern",
        Command::DropPattern { .. } => "DropPattern",
        Command::CreateCalendar { .. } => "CreateCalendar",
        Command::ShowCalendar { .. } => "ShowCalendar",
        Command::DropCalendar { .. } => "DropCalendar",
        Command::TSContainerCreate { .. } => "TSContainerCreate",
        Command::TSContainerDestroy { .. } => "TSContainerDestroy",
        Command::TSContainerUsage { .. } => "TSContainerUsage",
        Command::TSCreate { .. } => "TSCreate",
        Command::TSCreateIrr { .. } => "TSCreateIrr",
        Command::DropSeries { .. } => "DropSeries",
        Command::ListSeries { .. } => "ListSeries",
        Command::PutElem { .. } => "PutElem",
        Command::PutElemNoDups { .. } => "PutElemNoDups",
        Command::InsElem { .. } => "InsElem",
        Command::UpdElem { .. } => "UpdElem",
        Command::DelElem { .. } => "DelElem",
        Command::DelClip { .. } => "DelClip",
        Command::CalIndex { .. } => "CalIndex",
        Command::CalStamp { .. } => "CalStamp",
        Command::CalRange { .. } => "CalRange",
        Command::HideElem { .. } => "HideElem",
        Command::RevealElem { .. } => "RevealElem",
        Command::GetElem { .. } => "GetElem",
        Command::GetLastElem { .. } => "GetLastElem",
        Command::GetNelems { .. } => "GetNelems",
        Command::GetFirstElem { .. } => "GetFirstElem",
        Command::GetNthElem { .. } => "GetNthElem",
        Command::Clip { .. } => "Clip",
        Command::ClipCount { .. } => "ClipCount",
        Command::ClipGetCount { .. } => "ClipGetCount",
        Command::Union { .. } => "Union",
        Command::Intersect { .. } => "Intersect",
        Command::Lag { .. } => "Lag",
        Command::AggregateBy { .. } => "AggregateBy",
        Command::AggregateRange { .. } => "AggregateRange",
        Command::AggregateAll { .. } => "AggregateAll",
        Command::TSRunningSum { .. } => "TSRunningSum",
        Command::TSRunningAvg { .. } => "TSRunningAvg",
        Command::Apply { .. } => "Apply",
        Command::RollingCreate { .. } => "RollingCreate",
        Command::RollingPut { .. } => "RollingPut",
        Command::RollingClip { .. } => "RollingClip",
        Command::RollingDrop { .. } => "RollingDrop",
        Command::Begin => "Begin",
        Command::Commit => "Commit",
        Command::Rollback => "Rollback",
    }
}

fn first_of(command: &Command) -> &[u8] {
    match command {
        Command::CreateRowType { name, .. } => name.as_slice(),
        Command::DropRowType { name } => name.as_slice(),
        Command::CreatePattern { name, .. } => name.as_slice(),
        Command::NotOp { name, .. } => name.as_slice(),
        Command::AndPatterns { name, .. } => name.as_slice(),
        Command::OrPatterns { name, .. } => name.as_slice(),
        Command::AndCalendars { name, .. } => name.as_slice(),
        Command::OrCalendars { name, .. } => name.as_slice(),
        Command::ShowPattern { name } => name.as_slice(),
        Command::DropPattern { name } => name.as_slice(),
        Command::CreateCalendar { name, .. } => name.as_slice(),
        Command::ShowCalendar { name } => name.as_slice(),
        Command::DropCalendar { name } => name.as_slice(),
        Command::TSContainerCreate { name, .. } => name.as_slice(),
        Command::TSContainerDestroy { name } => name.as_slice(),
        Command::TSContainerUsage { name } => name.as_slice(),
        Command::TSCreate { key, .. } => key.as_slice(),
        Command::TSCreateIrr { key, .. } => key.as_slice(),
        Command::DropSeries { key } => key.as_slice(),
        Command::ListSeries { container } => container.as_slice(),
        Command::PutElem { key, .. } => key.as_slice(),
        Command::PutElemNoDups { key, .. } => key.as_slice(),
        Command::InsElem { key, .. } => key.as_slice(),
        Command::UpdElem { key, .. } => key.as_slice(),
        Command::DelElem { key, .. } => key.as_slice(),
        Command::DelClip { key, .. } => key.as_slice(),
        Command::CalIndex { calendar, .. } => calendar.as_slice(),
        Command::CalStamp { calendar, .. } => calendar.as_slice(),
        Command::CalRange { calendar, .. } => calendar.as_slice(),
        Command::HideElem { key, .. } => key.as_slice(),
        Command::RevealElem { key, .. } => key.as_slice(),
        Command::GetElem { key, .. } => key.as_slice(),
        Command::GetLastElem { key } => key.as_slice(),
        Command::GetNelems { key } => key.as_slice(),
        Command::GetFirstElem { key } => key.as_slice(),
        Command::GetNthElem { key, .. } => key.as_slice(),
        Command::Clip { key, .. } => key.as_slice(),
        Command::ClipCount { key, .. } => key.as_slice(),
        Command::ClipGetCount { key, .. } => key.as_slice(),
        Command::Union { first, .. } => first.as_slice(),
        Command::Intersect { first, .. } => first.as_slice(),
        Command::Lag { key, .. } => key.as_slice(),
        Command::AggregateBy { key, .. } => key.as_slice(),
        Command::AggregateRange { key, .. } => key.as_slice(),
        Command::AggregateAll { container, .. } => container.as_slice(),
        Command::TSRunningSum { key, .. } => key.as_slice(),
        Command::TSRunningAvg { key, .. } => key.as_slice(),
        Command::Apply { key, .. } => key.as_slice(),
        Command::RollingCreate { set, .. } => set.as_slice(),
        Command::RollingPut { set, .. } => set.as_slice(),
        Command::RollingClip { set, .. } => set.as_slice(),
        Command::RollingDrop { set } => set.as_slice(),
        _ => b"",
    }
}

fn second_of(command: &Command) -> &[u8] {
    match command {
        Command::CreateRowType { stamp, .. } => stamp.as_slice(),
        Command::NotOp { pattern, .. } => pattern.as_slice(),
        Command::AndPatterns { first, .. } => first.as_slice(),
        Command::OrPatterns { first, .. } => first.as_slice(),
        Command::AndCalendars { first, .. } => first.as_slice(),
        Command::OrCalendars { first, .. } => first.as_slice(),
        Command::TSContainerCreate { row_type, .. } => row_type.as_slice(),
        Command::TSCreate { calendar, .. } => calendar.as_slice(),
        Command::TSCreateIrr { container, .. } => container.as_slice(),
        Command::Union { second, .. } => second.as_slice(),
        Command::Intersect { second, .. } => second.as_slice(),
        Command::AggregateBy { calendar, .. } => calendar.as_slice(),
        Command::RollingCreate { calendar, .. } => calendar.as_slice(),
        _ => b"",
    }
}

fn third_of(command: &Command) -> &[u8] {
    match command {
        Command::AndPatterns { second, .. } => second.as_slice(),
        Command::OrPatterns { second, .. } => second.as_slice(),
        Command::AndCalendars { second, .. } => second.as_slice(),
        Command::OrCalendars { second, .. } => second.as_slice(),
        Command::TSCreate { container, .. } => container.as_slice(),
        Command::RollingCreate { container, .. } => container.as_slice(),
        _ => b"",
    }
}

fn is_rest(command: &Command, rest: Rest) -> bool {
    match rest {
        Rest::Nothing => true,
        Rest::Name(name) => third_of(command) == name,
        Rest::Text(text) => text_of(command) == text,
        Rest::Number(wanted) => number_of(command) == wanted,
        Rest::Stamp(units) => stamp_of(command) == Some(units),
        Rest::Stamps(first, last) => range_of(command) == Some((first, last)),
        Rest::List(text, first, last) => {
            text_of(command) == text && range_of(command) == Some((first, last))
        }
        Rest::Span(text, span, range) => {
            text_of(command) == text
                && number_of(command) == span
                && range_of(command) == Some(range)
        }
        Rest::StampAndName(units, name) => {
            stamp_of(command) == Some(units) && third_of(command) == name
        }
        Rest::StampAndNumber(units, wanted) => {
            stamp_of(command) == Some(units) && number_of(command) == wanted
        }
        Rest::Set(units, name, kept) => {
            stamp_of(command) == Some(units)
                && third_of(command) == name
                && number_of(command) == kept
        }
        Rest::Values(units, wanted) => {
            stamp_of(command) == Some(units) && are_values(values_of(command), wanted)
        }
        Rest::Columns(wanted) => are_columns(columns_of(command), wanted),
    }
}

fn stamp_of(command: &Command) -> Option<i64> {
    match command {
        Command::TSCreate { origin, .. } => Some(origin.units()),
        Command::RollingCreate { origin, .. } => Some(origin.units()),
        Command::PutElem { stamp, .. } => Some(stamp.units()),
        Command::PutElemNoDups { stamp, .. } => Some(stamp.units()),
        Command::InsElem { stamp, .. } => Some(stamp.units()),
        Command::UpdElem { stamp, .. } => Some(stamp.units()),
        Command::RollingPut { stamp, .. } => Some(stamp.units()),
        Command::DelElem { stamp, .. } => Some(stamp.units()),
        Command::HideElem { stamp, .. } => Some(stamp.units()),
        Command::RevealElem { stamp, .. } => Some(stamp.units()),
        Command::GetElem { stamp, .. } => Some(stamp.units()),
        Command::ClipCount { stamp, .. } => Some(stamp.units()),
        Command::CalStamp { after, .. } => Some(after.units()),
        _ => None,
    }
}

fn range_of(command: &Command) -> Option<(i64, i64)> {
    match command {
        Command::DelClip { from, to, .. } => Some((from.units(), to.units())),
        Command::CalIndex { from, to, .. } => Some((from.units(), to.units())),
        Command::CalRange { from, to, .. } => Some((from.units(), to.units())),
        Command::Clip { from, to, .. } => Some((from.units(), to.units())),
        Command::ClipGetCount { from, to, .. } => Some((from.units(), to.units())),
        Command::Union { from, to, .. } => Some((from.units(), to.units())),
        Command::Intersect { from, to, .. } => Some((from.units(), to.units())),
        Command::AggregateBy { from, to, .. } => Some((from.units(), to.units())),
        Command::AggregateRange { from, to, .. } => Some((from.units(), to.units())),
        Command::AggregateAll { from, to, .. } => Some((from.units(), to.units())),
        Command::TSRunningSum { from, to, .. } => Some((from.units(), to.units())),
        Command::TSRunningAvg { from, to, .. } => Some((from.units(), to.units())),
        Command::Apply { from, to, .. } => Some((from.units(), to.units())),
        Command::RollingClip { from, to, .. } => Some((from.units(), to.units())),
        _ => None,
    }
}

// The text of a pattern or a calendar, or the list of aggregates or expressions.
fn text_of(command: &Command) -> &[u8] {
    match command {
        Command::CreatePattern { text, .. } => text.as_slice(),
        Command::CreateCalendar { text, .. } => text.as_slice(),
        Command::AggregateBy { text, .. } => text.as_slice(),
        Command::AggregateRange { text, .. } => text.as_slice(),
        Command::AggregateAll { text, .. } => text.as_slice(),
        Command::TSRunningSum { text, .. } => text.as_slice(),
        Command::TSRunningAvg { text, .. } => text.as_slice(),
        Command::Apply { text, .. } => text.as_slice(),
        _ => b"",
    }
}

// The whole number that a command has: a quota, a place, a count, how many elements or windows.
fn number_of(command: &Command) -> i64 {
    match command {
        Command::TSContainerCreate { quota, .. } => *quota,
        Command::CalStamp { count, .. } => *count,
        Command::GetNthElem { index, .. } => *index,
        Command::ClipCount { count, .. } => *count,
        Command::Lag { by, .. } => *by,
        Command::TSRunningSum { span, .. } => *span,
        Command::TSRunningAvg { span, .. } => *span,
        Command::RollingCreate { kept, .. } => *kept,
        _ => 0,
    }
}

fn values_of(command: &Command) -> &[Literal] {
    match command {
        Command::PutElem { values, .. } => values.as_slice(),
        Command::PutElemNoDups { values, .. } => values.as_slice(),
        Command::InsElem { values, .. } => values.as_slice(),
        Command::UpdElem { values, .. } => values.as_slice(),
        Command::RollingPut { values, .. } => values.as_slice(),
        _ => &[],
    }
}

fn columns_of(command: &Command) -> &[Column] {
    match command {
        Command::CreateRowType { columns, .. } => columns.as_slice(),
        _ => &[],
    }
}

fn are_values(found: &[Literal], wanted: &[Value]) -> bool {
    found.len() == wanted.len() && found.iter().zip(wanted).all(|(a, b)| is_value(a, *b))
}

fn is_value(found: &Literal, wanted: Value) -> bool {
    match (found, wanted) {
        (Literal::Null, Value::Null) => true,
        (Literal::Number { units, scale }, Value::Number(number, digits)) => {
            *units == number && *scale == digits
        }
        (Literal::Text(bytes), Value::Text(text)) => bytes.as_slice() == text,
        _ => false,
    }
}

fn are_columns(found: &[Column], wanted: &[(&[u8], ColumnKind)]) -> bool {
    found.len() == wanted.len() && found.iter().zip(wanted).all(|(a, b)| is_column(a, *b))
}

fn is_column(found: &Column, wanted: (&[u8], ColumnKind)) -> bool {
    found.name.as_slice() == wanted.0 && found.kind == wanted.1
}

// The command that a statement is read as, as a list of one: a list lets go of its commands in one place, where a
// function that owned one would have to let go of each of its variants.
pub(crate) fn read(alloc: Global, text: &[u8]) -> Result<Vec<Command>, Trouble> {
    let mut commands = Vec::new(alloc);
    commands.push(read_command(alloc, &text[..text.len().min(65536)])?)?;
    Ok(commands)
}

// A copy of the first of these commands, as a list.
fn copied(alloc: Global, commands: &[Command]) -> Result<Vec<Command>, AllocError> {
    let mut copies = Vec::new(alloc);
    if let Some(command) = commands.first() {
        copies.push(command.copy()?)?;
    }
    Ok(copies)
}

// Whether the first of these commands is this.
fn has_row(commands: &[Command], row: Row) -> bool {
    match commands.first() {
        Some(command) => is_row(command, row),
        None => false,
    }
}

// Whether a statement is read as this command.
pub(crate) fn is_read(alloc: Global, text: &[u8], row: Row) -> bool {
    match read(alloc, text) {
        Ok(commands) => has_row(commands.as_slice(), row),
        Err(_) => false,
    }
}

// Whether a copy of what a statement is read as is this command.
pub(crate) fn is_copied(alloc: Global, text: &[u8], row: Row) -> Result<bool, Trouble> {
    let commands = read(alloc, text)?;
    let copies = copied(alloc, commands.as_slice())?;
    Ok(has_row(copies.as_slice(), row))
}

// The place at which a statement is refused as none of the grammar, if it is.
pub(crate) fn place(alloc: Global, text: &[u8]) -> Option<u32> {
    match read(alloc, text) {
        Err(Trouble::Refused(Refusal::Syntax { place })) => Some(place),
        _ => None,
    }
}

/// Statements, and the commands that they are.
pub(crate) static STATEMENTS: [(&[u8], Row); 24] = [
    (
        b"CreateRowType(rd, t datetime, v integer);",
        (
            "CreateRowType",
            b"rd",
            b"t",
            Rest::Columns(&[(b"v", ColumnKind::Integer)]),
        ),
    ),
    (
        b"CreateRowType(w,t datetime,a smallint,b bigint,c decimal(018,0),d varchar ( 255 ));",
        ("CreateRowType", b"w", b"t", Rest::Columns(&WIDE)),
    ),
    (
        b"DropRowType(rd);",
        ("DropRowType", b"rd", b"", Rest::Nothing),
    ),
    (
        b"TSContainerCreate(c1, rd, 1);",
        ("TSContainerCreate", b"c1", b"rd", Rest::Number(1)),
    ),
    (
        b"TSContainerCreate(c1,rd,0065536);",
        ("TSContainerCreate", b"c1", b"rd", Rest::Number(65536)),
    ),
    (
        b"TSContainerDestroy(c1);",
        ("TSContainerDestroy", b"c1", b"", Rest::Nothing),
    ),
    (
        b"TSContainerUsage(_1);",
        ("TSContainerUsage", b"_1", b"", Rest::Nothing),
    ),
    (
        b"TSCreate('x', c, '1970-01-01 00:00:00.00001', c1);",
        ("TSCreate", b"x", b"c", Rest::StampAndName(1, b"c1")),
    ),
    (
        b"TSCreateIrr('x', c1);",
        ("TSCreateIrr", b"x", b"c1", Rest::Nothing),
    ),
    (
        b"DropSeries('it''s');",
        ("DropSeries", b"it's", b"", Rest::Nothing),
    ),
    (
        b"ListSeries(null);",
        ("ListSeries", b"null", b"", Rest::Nothing),
    ),
    (
        b"InsElem('x','1970-01-01 00:00:00');",
        ("InsElem", b"x", b"", Rest::Values(0, &[])),
    ),
    (
        b" \n InsElem\t('x' ,'1970-01-01 00:00:00.00001', null,-0,007,-1.50,'', 'a''')\r\n;",
        ("InsElem", b"x", b"", Rest::Values(1, &SEVERAL)),
    ),
    (
        b"PutElem('x','1970-01-01 00:00:00.00001',null,-0,007,-1.50,'','a''');",
        ("PutElem", b"x", b"", Rest::Values(1, &SEVERAL)),
    ),
    (
        b"PutElemNoDups('x' , '1970-01-01 00:00:00');",
        ("PutElemNoDups", b"x", b"", Rest::Values(0, &[])),
    ),
    (
        b"UpdElem('x','1970-01-01 00:00:00',null);",
        ("UpdElem", b"x", b"", Rest::Values(0, &[Value::Null])),
    ),
    (
        b"DelElem('it''s','1970-01-01 00:00:00.00001');",
        ("DelElem", b"it's", b"", Rest::Stamp(1)),
    ),
    (
        b"DelClip('x','1970-01-01 00:00:00','1969-12-31 23:59:59.99999');",
        ("DelClip", b"x", b"", Rest::Stamps(0, -1)),
    ),
    (
        b"GetLastElem('x');",
        ("GetLastElem", b"x", b"", Rest::Nothing),
    ),
    (
        b"HideElem('x', '1970-01-01 00:00:00');",
        ("HideElem", b"x", b"", Rest::Stamp(0)),
    ),
    (
        b"RevealElem('it''s','1970-01-01 00:00:00.00001');",
        ("RevealElem", b"it's", b"", Rest::Stamp(1)),
    ),
    (
        b"GetElem('x','1969-12-31 23:59:59.99999');",
        ("GetElem", b"x", b"", Rest::Stamp(-1)),
    ),
    (b"GetNelems('''');", ("GetNelems", b"'", b"", Rest::Nothing)),
    (
        b"GetNelems('a;b');",
        ("GetNelems", b"a;b", b"", Rest::Nothing),
    ),
];

#[test]
fn each_routine_is_read_with_its_arguments(rt: HostRuntime) {
    for (text, wanted) in &STATEMENTS {
        assert!(rt; is_read(rt.alloc(), text, *wanted));
    }
}

const WIDE: [(&[u8], ColumnKind); 4] = [
    (b"a", ColumnKind::SmallInt),
    (b"b", ColumnKind::BigInt),
    (
        b"c",
        ColumnKind::Decimal {
            digits: 18,
            scale: 0,
        },
    ),
    (b"d", ColumnKind::VarChar { length: 255 }),
];

const SEVERAL: [Value; 6] = [
    Value::Null,
    Value::Number(0, 0),
    Value::Number(7, 0),
    Value::Number(-150, 2),
    Value::Text(b""),
    Value::Text(b"a'"),
];

/// Statements, and their values.
static VALUES: [(&[u8], &[Value]); 8] = [
    (
        b"InsElem('x','1970-01-01 00:00:00',1.5);",
        &[Value::Number(15, 1)],
    ),
    (
        b"InsElem('x','1970-01-01 00:00:00',-0.50);",
        &[Value::Number(-50, 2)],
    ),
    (
        b"InsElem('x','1970-01-01 00:00:00',1.0);",
        &[Value::Number(10, 1)],
    ),
    (
        b"InsElem('x','1970-01-01 00:00:00',-2147483648);",
        &[Value::Number(-2147483648, 0)],
    ),
    (
        b"InsElem('x','1970-01-01 00:00:00','''');",
        &[Value::Text(b"'")],
    ),
    (
        b"InsElem('x','1970-01-01 00:00:00','a;b');",
        &[Value::Text(b"a;b")],
    ),
    (
        b"InsElem('x','1970-01-01 00:00:00',99999999999999999999999999999999999999);",
        &[Value::Number(99_999_999_999_999_999_999_999_999_999_999_999_999, 0)],
    ),
    (
        b"InsElem('x','1970-01-01 00:00:00',-0000000000000000000000000000000000000.1);",
        &[Value::Number(-1, 1)],
    ),
];

#[test]
fn a_value_is_its_longest_token(rt: HostRuntime) {
    for (text, values) in &VALUES {
        let wanted: Row = ("InsElem", b"x", b"", Rest::Values(0, values));
        assert!(rt; is_read(rt.alloc(), text, wanted));
    }
}

// How many values and columns lists of one and none have, once they are taken and given back.
fn given_back(alloc: Global) -> Result<(usize, usize), AllocError> {
    let mut values = Vec::new(alloc);
    values.push(Literal::Null)?;
    let values = Literals::from_vec(values).into_vec().len();
    let columns = Columns::from_vec(Vec::new(alloc)).into_vec().len();
    Ok((values, columns))
}

#[test]
fn lists_are_taken_and_given_back(rt: HostRuntime) {
    assert!(rt; matches!(given_back(rt.alloc()), Ok((1, 0))));
}

// The commands that `gen` carries out, each made when its turn comes.
ghost use Rattle.std.specs.Prelude.{◌≡◌, ◌≤◌, ◌<◌, ◌+◌, ℕ, pos, ◌+ℤ◌, IsTrue, IfOk};
ghost use Rattle.ts_base.specs.Name.{is_name, is_key};
ghost use Rattle.ts_base.specs.Moment.{IsStamp};
ghost use Rattle.ts_command.specs.Form.{HasForm};
ghost use Rattle.ts_multi.specs.Picks.{drawn};
ghost use Rattle.ts_generator.specs.Generated.{beginning, ending, opening, edit, put_behind, add_up, closing};
ghost use Rattle.ts_generator.specs.Generated.{generated, edits_before, IsNext};

use std::alloc::{AllocError, Global};
use ts_base::{Bytes, Key, Name, Stamp};
use ts_command::{Columns, Command, Literals};
use ts_row::{Column, ColumnKind, Literal};

/// The commands before the edits.
const OPENING: u32 = 6;

/// The commands behind them.
const CLOSING: u32 = 2;

/// 2011-01-03 00:00:00.
const BEGINNING: i64 = 129_401_280_000_000;

/// 2012-01-01 00:00:00.
const ENDING: i64 = 132_537_600_000_000;

const SECOND: u64 = 100_000;

const MINUTE: u64 = 6_000_000;

const REGULAR: &[u8] = b"genr";

const IRREGULAR: &[u8] = b"geni";

/// How many commands a count of edits gives.
pub(crate) fn command_count(count: u32) -> u32
    requires { count ≤ 1000000 }
    ensures { result ≡ count + 8 }
{
    OPENING + count + CLOSING
}

/// The number drawn first, of a seed.
#[tactic(auto, unfolding(ts_multi::specs::Picks::drawn))]
pub(crate) fn first_drawn(seed: u32) -> u64
    ensures value { result ≡ drawn seed 0 }
    ensures bound { result < 2147483648 }
{
    seed as u64 % 2_147_483_648
}

/// The number drawn for a command, where this one was drawn before it: a new one for each edit.
pub(crate) fn draw(count: u32, number: u32, last: u64) -> u64
    requires { last < 2147483648 }
    ensures value { (seed : ℕ) → last ≡ drawn seed (edits_before count number)
        → result ≡ drawn seed (edits_before count (number + 1)) }
    ensures bound { result < 2147483648 }
{
    if number >= OPENING && number - OPENING < count {
        (1_103_515_245 * last + 12_345) % 2_147_483_648
    } else {
        last
    }
}

/// The command of a number, counted from 0, for which this was drawn.
pub(crate) fn make_command(
    alloc: Global,
    count: u32,
    number: u32,
    random: u64,
) -> Result<Command, AllocError>
    requires count { count ≤ 1000000 }
    requires number { number < count + 8 }
    ensures next { IfOk result (λ c. (seed : ℕ) → random ≡ drawn seed (edits_before count (number + 1))
        → IsNext (generated count seed) number c) }
    ensures form { IfOk result HasForm }
{
    if number < OPENING {
        return make_opening(alloc, number);
    }
    if number - OPENING < count {
        return make_edit(alloc, number - OPENING + 1, random);
    }
    make_closing(alloc, number - OPENING - count)
}

// A command that makes the two series, or what they stand on.
#[tactic(auto, unfolding(crate::specs::Generated::opening))]
fn make_opening(alloc: Global, number: u32) -> Result<Command, AllocError>
    requires { number < 6 }
    ensures next { IfOk result (λ c. IsNext opening number c) }
    ensures form { IfOk result HasForm }
{
    match number {
        0 => make_row_type(alloc),
        1 => Ok(Command::CreatePattern {
            name: name(alloc, b"genp")?,
            text: Bytes::from_slice(alloc, b"{1 on},minute")?,
        }),
        2 => Ok(Command::CreateCalendar {
            name: name(alloc, b"genc")?,
            text: Bytes::from_slice(
                alloc,
                b"startdate(2011-01-03 00:00:00), pattstart(2011-01-03 00:00:00), pattname(genp)",
            )?,
        }),
        3 => Ok(Command::TSContainerCreate {
            name: name(alloc, b"genk")?,
            row_type: name(alloc, b"gent")?,
            quota: 4096,
        }),
        4 => Ok(Command::TSCreate {
            key: key(alloc, REGULAR)?,
            calendar: name(alloc, b"genc")?,
            origin: beginning(),
            container: name(alloc, b"genk")?,
        }),
        _ => Ok(Command::TSCreateIrr {
            key: key(alloc, IRREGULAR)?,
            container: name(alloc, b"genk")?,
        }),
    }
}

// The row type of both series.
#[tactic(auto, unfolding(crate::specs::Generated::opening))]
fn make_row_type(alloc: Global) -> Result<Command, AllocError>
    ensures next { IfOk result (λ c. IsNext opening 0 c) }
    ensures form { IfOk result HasForm }
{
    let mut columns = Vec::new(alloc);
    columns.push(Column {
        name: name(alloc, b"v")?,
        kind: ColumnKind::Integer,
    })?;
    Ok(Command::CreateRowType {
        name: name(alloc, b"gent")?,
        stamp: name(alloc, b"t")?,
        columns: Columns::from_vec(columns),
    })
}

// Edit number `number`, counted from 1.
#[tactic(auto, unfolding(crate::specs::Generated::edit))]
fn make_edit(alloc: Global, number: u32, random: u64) -> Result<Command, AllocError>
    ensures edit { IfOk result (λ c. c ≡ edit number random) }
    ensures form { IfOk result HasForm }
{
    let place = random / 1000 % 100_000;
    let value = random % 1000;
    if number % 2 == 1 {
        make_put(alloc, REGULAR, place * MINUTE, value)
    } else {
        make_put(alloc, IRREGULAR, place * SECOND, value)
    }
}

// A value is put into a series, so many units of time behind the beginning.
fn make_put(alloc: Global, series: &[u8], units: u64, value: u64) -> Result<Command, AllocError>
    requires key { IsTrue (is_key series.now) }
    requires within { units ≤ 1000000000000 }
    ensures put { IfOk result (λ c. c ≡ put_behind series.now units value) }
    ensures form { IfOk result HasForm }
{
    let mut values = Vec::new(alloc);
    values.push(Literal::Number {
        units: value as i128,
        scale: 0,
    })?;
    Ok(Command::PutElem {
        key: key(alloc, series)?,
        stamp: behind_beginning(units),
        values: Literals::from_vec(values),
    })
}

// A command that adds up a series.
#[tactic(auto, unfolding(crate::specs::Generated::closing))]
fn make_closing(alloc: Global, number: u32) -> Result<Command, AllocError>
    requires { number < 2 }
    ensures next { IfOk result (λ c. IsNext closing number c) }
    ensures form { IfOk result HasForm }
{
    if number == 0 {
        make_sum(alloc, REGULAR)
    } else {
        make_sum(alloc, IRREGULAR)
    }
}

// All elements of a series are added up and counted.
fn make_sum(alloc: Global, series: &[u8]) -> Result<Command, AllocError>
    requires { IsTrue (is_key series.now) }
    ensures sum { IfOk result (λ c. c ≡ add_up series.now) }
    ensures form { IfOk result HasForm }
{
    Ok(Command::AggregateRange {
        text: Bytes::from_slice(alloc, b"sum($v),count($v)")?,
        key: key(alloc, series)?,
        from: beginning(),
        to: ending(),
    })
}

// The name with these bytes.
fn name(alloc: Global, text: &[u8]) -> Result<Name, AllocError>
    requires { IsTrue (is_name text.now) }
    ensures { IfOk result (λ made. made ≡ text.now) }
{
    match Name::read(alloc, text)? {
        Some(name) => Ok(name),
        None => unreachable!(),
    }
}

// The key with these bytes.
fn key(alloc: Global, text: &[u8]) -> Result<Key, AllocError>
    requires { IsTrue (is_key text.now) }
    ensures { IfOk result (λ made. made ≡ text.now) }
{
    match Key::read(alloc, text)? {
        Some(key) => Ok(key),
        None => unreachable!(),
    }
}

// Where both series begin.
fn beginning() -> Stamp
    ensures { result ≡ beginning }
{
    stamp(BEGINNING)
}

// A stamp behind all elements.
fn ending() -> Stamp
    ensures { result ≡ ending }
{
    stamp(ENDING)
}

// The stamp so many units of time behind the beginning.
fn behind_beginning(units: u64) -> Stamp
    requires { units ≤ 1000000000000 }
    ensures { result ≡ beginning +ℤ pos units }
{
    stamp(BEGINNING + units as i64)
}

// The stamp of a number of units in the range.
fn stamp(units: i64) -> Stamp
    requires { IsStamp units }
    ensures { result ≡ units }
{
    match Stamp::of(units) {
        Some(stamp) => stamp,
        None => unreachable!(),
    }
}

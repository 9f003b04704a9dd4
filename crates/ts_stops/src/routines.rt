// A run with every routine that writes, a transaction in it, and a page that is split and joined again: a stop within
// each call that isn't a read, by each choice for what it tears, leaves what was acknowledged by then, or that and the
// next statement.
ghost use Rattle.std.specs.Prelude.{◌<◌};
ghost use Rattle.ts_disk.specs.Memory.{site_calls};

use std::alloc::Global;
use std::test::Fail;
use std::thread::Threads;
use ts_disk::{MemorySite, Pick};
use ts_programs::{
    Course, PICKS, bytes_after, bytes_of, carried_out, is_after, only, reading_of, reads, run,
    script_of, states_of, whole_replies,
};

/// A series whose page is full, since a page has room for five of these rows; and a row type and a container that
/// nothing uses.
const BEFORE: &[u8] =
    b"CreateRowType(wide, t datetime, p varchar(255), q varchar(255), r varchar(255));\
    TSContainerCreate(c2, wide, 4);TSCreateIrr('w', c2);\
    InsElem('w','2011-01-01 00:00:00','1','',null);InsElem('w','2011-01-02 00:00:00','2','',null);\
    InsElem('w','2011-01-03 00:00:00','3','',null);InsElem('w','2011-01-04 00:00:00','4','',null);\
    InsElem('w','2011-01-05 00:00:00','5','',null);\
    CreateRowType(spare, t datetime, v integer);TSContainerCreate(c3, wide, 1);";

const ALL: Course = Course {
    statements: &[
        (b"CreateRowType(rd, t datetime, v integer);", b"ok\n"),
        (b"DropRowType(spare);", b"ok\n"),
        (b"CreatePattern(p, '{1 on},day');", b"ok\n"),
        (b"NotOp(n, p);", b"ok\n"),
        (b"AndOp(pattern, a, p, n);", b"ok\n"),
        (b"OrOp(pattern, o, p, n);", b"ok\n"),
        (b"DropPattern(o);", b"ok\n"),
        (
            b"CreateCalendar(k, 'startdate(2011-01-02 00:00:00),pattstart(2011-01-02 00:00:00),pattname(p)');",
            b"ok\n",
        ),
        (b"AndOp(calendar, b, k, k);", b"ok\n"),
        (b"OrOp(calendar, e, k, k);", b"ok\n"),
        (b"DropCalendar(e);", b"ok\n"),
        (b"TSContainerDestroy(c3);", b"ok\n"),
        (b"TSContainerCreate(c1, rd, 4);", b"ok\n"),
        (
            b"TSCreate('r', b, '2011-01-03 12:00:00', c1);",
            b"ok 2011-01-03 00:00:00.00000\n",
        ),
        (
            b"PutElem('r','2011-01-04 10:30:00',4);",
            b"ok 2011-01-04 00:00:00.00000\n",
        ),
        (b"Begin;", b"ok\n"),
        (b"TSCreateIrr('x', c1);", b"ok\n"),
        // Here the page is split.
        (
            b"InsElem('w','2011-01-03 12:00:00','6','',null);",
            b"ok 2011-01-03 12:00:00.00000\n",
        ),
        (
            b"UpdElem('w','2011-01-01 00:00:00','9','',null);",
            b"ok 2011-01-01 00:00:00.00000\n",
        ),
        (b"Commit;", b"ok 3\n"),
        (
            b"PutElemNoDups('x','2011-01-03 00:00:00',1);",
            b"ok 2011-01-03 00:00:00.00000\n",
        ),
        (
            b"HideElem('x','2011-01-03 00:00:00');",
            b"ok 2011-01-03 00:00:00.00000\n",
        ),
        // Here both pages become one.
        (b"DelElem('w','2011-01-02 00:00:00');", b"ok 1\n"),
        (
            b"RevealElem('x','2011-01-03 00:00:00');",
            b"ok 2011-01-03 00:00:00.00000\n",
        ),
        (
            b"DelClip('w','2011-01-04 00:00:00','2011-01-05 00:00:00');",
            b"ok 2\n",
        ),
        (b"DropSeries('x');", b"ok\n"),
    ],
    reading: b"ListSeries(c1);ListSeries(c2);TSContainerUsage(c1);TSContainerUsage(c2);TSContainerUsage(c3);\
        ShowPattern(p);ShowPattern(n);ShowPattern(a);ShowPattern(o);ShowCalendar(k);ShowCalendar(b);ShowCalendar(e);\
        Clip('w','2011-01-01 00:00:00','2011-01-31 00:00:00');GetElem('r','2011-01-04 00:00:00');\
        GetElem('x','2011-01-03 00:00:00');CreateRowType(rd, t datetime, v integer);\
        CreateRowType(spare, t datetime, v integer);",
};

/// What the reading says behind all statements.
const LEFT: &[u8] =
    b"'r' regular 1\nok 1\n'w' irregular 3\nok 1\nok 1 4\nok 1 4\nerror 10 UnknownName\n\
    {1 on},day\nok\n{1 off},day\nok\n{1 off},day\nok\nerror 10 UnknownName\n\
    startdate(2011-01-02 00:00:00.00000), pattstart(2011-01-02 00:00:00.00000), pattname(p)\nok\n\
    startdate(2011-01-02 00:00:00.00000), pattstart(2011-01-02 00:00:00.00000), pattern({1 on},day)\nok\n\
    error 10 UnknownName\n\
    2011-01-01 00:00:00.00000 '9','',null\n2011-01-03 00:00:00.00000 '3','',null\n\
    2011-01-03 12:00:00.00000 '6','',null\nok 3\n2011-01-04 00:00:00.00000 4\nok 1\n\
    error 10 UnknownName\nerror 11 NameTaken\nok\n";

// How many of these differ from the one before.
fn changes(states: &[Vec<u8>]) -> usize {
    states
        .iter()
        .zip(states.iter().skip(1))
        .filter(|pair| *pair.0 != *pair.1)
        .count()
}

// Each statement leaves another state but those of the transaction: Begin and its three commands leave what was there.
#[test]
fn the_reading_tells_apart_what_each_routine_leaves(rt: HostRuntime) -> Result<(), Fail> {
    let alloc = rt.alloc();
    let bytes = bytes_after(&rt, alloc, BEFORE)?;
    let states = states_of(&rt, alloc, &ALL, &bytes)?;
    assert!(rt; states.last().is_some_and(|state| state.as_slice() == LEFT));
    assert_eq!(rt; changes(&states), ALL.statements.len().saturating_sub(4));
    Ok(())
}

// Whether each image of a stop in the last call of a run is as after so many statements, or after one more.
fn all_after(
    rt: &(impl Threads + Sync),
    alloc: Global,
    states: &[Vec<u8>],
    site: &MemorySite,
    call: u64,
    count: usize,
) -> Result<bool, Fail>
    requires { call < site_calls site.now }
{
    for pick in &PICKS {
        if !is_after(rt, alloc, &ALL, states, site.image(call, *pick)?, count)? {
            return Ok(false);
        }
    }
    Ok(true)
}

// A volume whose journal has no record before the run. The calls from 1 on, so many, only read.
#[test]
fn a_stop_in_any_routine_leaves_what_was_acknowledged(rt: HostRuntime) -> Result<(), Fail> {
    let alloc = rt.alloc();
    let mut settleds = vec![in alloc; MemorySite::new(bytes_after(&rt, alloc, BEFORE)?)?]?;
    let settled = only(&mut settleds)?;
    run(&rt, alloc, settled, b"")?;
    let bytes = bytes_of(alloc, settled)?;
    let states = states_of(&rt, alloc, &ALL, &bytes)?;
    let script = script_of(alloc, &ALL, ALL.statements.len())?;
    let reads = reads(&rt, alloc, "8")?;
    for call in 0..reads.saturating_add(400) {
        if 1 <= call && call <= reads {
            continue;
        }
        let mut sites = vec![in alloc; MemorySite::new(Vec::from_slice(alloc, &bytes)?)?]?;
        let site = only(&mut sites)?;
        site.fuse(call);
        run(&rt, alloc, site, &script)?;
        let count = whole_replies(site.said());
        if site.calls() <= call {
            assert_eq!(rt; count, ALL.statements.len());
            return Ok(());
        }
        assert!(rt;
            all_after(&rt, alloc, &states, site, call, count)?,
            "at {call}"
        );
    }
    Err(Fail::from("the run has no end"))
}

/// The calls of an opening that bring the pages of all records home are fewer.
const HOMEWARD: u64 = 60;

// The volume that a stop left behind the last statement: its journal holds a record of each commit. The calls before
// the last ones only read.
#[test]
fn so_does_a_stop_in_the_opening_that_follows(rt: HostRuntime) -> Result<(), Fail> {
    let alloc = rt.alloc();
    let bytes = bytes_after(&rt, alloc, BEFORE)?;
    let states = states_of(&rt, alloc, &ALL, &bytes)?;
    let all = ALL.statements.len();
    let stopped = carried_out(&rt, alloc, &ALL, &bytes, all)?;
    assert!(rt; stopped.calls() > 0);
    let left = stopped.image(stopped.calls() - 1, Pick::Old)?;
    let mut sites = vec![in alloc; MemorySite::new(left)?]?;
    let site = only(&mut sites)?;
    assert_eq!(rt; run(&rt, alloc, site, b"")?, 0);
    for call in 0..site.calls() {
        if call > 0 && call.saturating_add(HOMEWARD) < site.calls() {
            continue;
        }
        assert!(rt;
            all_after(&rt, alloc, &states, site, call, all)?,
            "at {call}"
        );
    }
    let home = bytes_of(alloc, site)?;
    assert_eq!(rt; reading_of(&rt, alloc, &ALL, home)?.as_slice(), LEFT);
    Ok(())
}

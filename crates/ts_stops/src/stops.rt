// A stop within each call of a run that isn't a read, by each choice for what it tears: what is left holds what was
// acknowledged by then, or that and the next statement.
ghost use Rattle.std.specs.Prelude.{◌<◌};
ghost use Rattle.ts_disk.specs.Memory.{site_calls};

use std::alloc::Global;
use std::test::Fail;
use std::thread::Threads;
use ts_disk::{MemorySite, Pick};
use ts_programs::{PICKS, bytes_after, only, reads, run};

/// Statements that a run carries out, of which each tells whether it was carried out before, and a reading of all that
/// they make.
#[derive(Clone, Copy)]
struct Course<'a> {
    /// A statement, what is said to it, and what is said where it was carried out before.
    statements: &'a [(&'a [u8], &'a [u8], &'a [u8])],
    reading: &'a [u8],
    read: &'a [u8],
}

/// Each statement is refused where the store has what it makes.
const MAKING: [(&[u8], &[u8], &[u8]); 13] = [
    (RECORD, b"ok\n", b"error 11 NameTaken\n"),
    (
        b"TSContainerCreate(c1, rd, 8);",
        b"ok\n",
        b"error 11 NameTaken\n",
    ),
    (b"TSCreateIrr('x', c1);", b"ok\n", b"error 11 NameTaken\n"),
    (
        b"InsElem('x','2011-01-03 00:00:00',1);",
        b"ok 2011-01-03 00:00:00.00000\n",
        b"error 23 Duplicate\n",
    ),
    (
        b"InsElem('x','2011-01-03 00:00:02',3);",
        b"ok 2011-01-03 00:00:02.00000\n",
        b"error 23 Duplicate\n",
    ),
    (
        b"CreatePattern(p, '{1 on},day');",
        b"ok\n",
        b"error 11 NameTaken\n",
    ),
    (
        b"CreateCalendar(k, 'startdate(2011-01-02 00:00:00),pattstart(2011-01-02 00:00:00),pattname(p)');",
        b"ok\n",
        b"error 11 NameTaken\n",
    ),
    (
        b"AndOp(calendar, both, k, k);",
        b"ok\n",
        b"error 11 NameTaken\n",
    ),
    // The calendar has the pattern by its name.
    (b"DropPattern(p);", b"error 32 InUse\n", b"error 32 InUse\n"),
    (
        b"TSCreate('r', both, '2011-01-03 12:00:00', c1);",
        b"ok 2011-01-03 00:00:00.00000\n",
        b"error 11 NameTaken\n",
    ),
    (
        b"InsElem('r','2011-01-04 10:30:00',4);",
        b"ok 2011-01-04 00:00:00.00000\n",
        b"error 23 Duplicate\n",
    ),
    // The first offset of the second page.
    (
        b"InsElem('r','2012-11-10 00:00:00',5);",
        b"ok 2012-11-10 00:00:00.00000\n",
        b"error 23 Duplicate\n",
    ),
    // The series lies on the calendar.
    (
        b"DropCalendar(both);",
        b"error 32 InUse\n",
        b"error 32 InUse\n",
    ),
];

/// Reads all that `MAKING` makes.
const READING: &[u8] = b"TSContainerUsage(c1);ListSeries(c1);GetElem('x','2011-01-03 00:00:00');\
    GetElem('x','2011-01-03 00:00:02');CalIndex(both,'2011-01-02 00:00:00','2011-01-05 00:00:00');\
    GetElem('r','2011-01-04 23:00:00');GetLastElem('r');GetNelems('r');";

const READ: &[u8] =
    b"ok 3 8\n'r' regular 2\n'x' irregular 2\nok 2\n2011-01-03 00:00:00.00000 1\nok 1\n\
    2011-01-03 00:00:02.00000 3\nok 1\nok 3\n2011-01-04 00:00:00.00000 4\nok 1\n2012-11-10 00:00:00.00000 5\nok 1\nok 2\n";

// What is said to the statements and the reading where so many of the statements were carried out before.
fn said_after(alloc: Global, course: &Course, count: usize) -> Result<Vec<u8>, Fail> {
    let mut said = Vec::new(alloc);
    let mut number: usize = 0;
    for (_, made, there) in course.statements {
        said.extend_from_slice(if number < count { there } else { made })?;
        number = number.saturating_add(1);
    }
    said.extend_from_slice(course.read)?;
    Ok(said)
}

// The statements, one after the other.
fn script_of(alloc: Global, course: &Course) -> Result<Vec<u8>, Fail> {
    let mut script = Vec::new(alloc);
    for (statement, _, _) in course.statements {
        script.extend_from_slice(statement)?;
    }
    Ok(script)
}

// Whether a volume holds what so many of the statements make, or these and the next one.
fn holds(
    rt: &(impl Threads + Sync),
    alloc: Global,
    course: &Course,
    bytes: Vec<u8>,
    count: usize,
) -> Result<bool, Fail> {
    let mut sites = vec![in alloc; MemorySite::new(bytes)?]?;
    let site = only(&mut sites)?;
    let mut script = script_of(alloc, course)?;
    script.extend_from_slice(course.reading)?;
    let status = run(rt, alloc, site, &script)?;
    let now = said_after(alloc, course, count)?;
    let next = said_after(alloc, course, count.saturating_add(1))?;
    Ok(status == 0 && (site.said() == now.as_slice() || site.said() == next.as_slice()))
}

// How many replies were said in whole: each has one line.
fn whole_replies(said: &[u8]) -> usize {
    said.iter().filter(|byte| **byte == b'\n').count()
}

// Whether each image of a stop in the last call of a run, by these choices, holds what so many of the statements make.
fn all_hold(
    rt: &(impl Threads + Sync),
    alloc: Global,
    course: &Course,
    site: &MemorySite,
    call: u64,
    picks: &[Pick],
    count: usize,
) -> Result<bool, Fail>
    requires { call < site_calls site.now }
{
    for pick in picks {
        if !holds(rt, alloc, course, site.image(call, *pick)?, count)? {
            return Ok(false);
        }
    }
    Ok(true)
}

// Runs of a course over a volume on which this script was carried out, which makes what so many of its statements make;
// each is stopped at the call of one number. The calls from 1 on, so many, only read.
fn stops(
    rt: &(impl Threads + Sync),
    alloc: Global,
    course: &Course,
    beginning: &[u8],
    there: usize,
    picks: &[Pick],
) -> Result<bool, Fail> {
    let bytes = bytes_after(rt, alloc, beginning)?;
    let script = script_of(alloc, course)?;
    let reads = reads(rt, alloc, "8")?;
    for call in 0..reads.saturating_add(200) {
        if 1 <= call && call <= reads {
            continue;
        }
        let mut sites = vec![in alloc; MemorySite::new(Vec::from_slice(alloc, &bytes)?)?]?;
        let site = only(&mut sites)?;
        site.fuse(call);
        run(rt, alloc, site, &script)?;
        if site.calls() <= call {
            // The run needed no call of this number; its last is the last say.
            let all = whole_replies(site.said()) == course.statements.len();
            return Ok(all && call > reads.saturating_add(20));
        }
        let count = there.max(whole_replies(site.said()));
        if !all_hold(rt, alloc, course, site, call, picks, count)? {
            return Ok(false);
        }
    }
    Ok(false)
}

/// The first of the statements: the journal holds its record when the run begins.
const RECORD: &[u8] = b"CreateRowType(rd, t datetime, v integer);";

const MADE: Course = Course {
    statements: &MAKING,
    reading: READING,
    read: READ,
};

#[test]
fn a_stop_in_a_run_leaves_what_was_acknowledged(rt: HostRuntime) -> Result<(), Fail> {
    assert!(rt; stops(&rt, rt.alloc(), &MADE, b"", 0, &PICKS)?);
    Ok(())
}

#[test]
fn so_does_a_stop_over_a_record(rt: HostRuntime) -> Result<(), Fail> {
    assert!(rt; stops(&rt, rt.alloc(), &MADE, RECORD, 1, &PICKS)?);
    Ok(())
}

/// A calendar, and a series whose page is full: a page has room for five of these rows.
const FULL: &[u8] =
    b"CreateRowType(wide, t datetime, p varchar(255), q varchar(255), r varchar(255));\
    TSContainerCreate(c2, wide, 8);TSCreateIrr('w', c2);\
    InsElem('w','2011-01-01 00:00:00','1','',null);InsElem('w','2011-01-02 00:00:00','2','',null);\
    InsElem('w','2011-01-03 00:00:00','3','',null);InsElem('w','2011-01-04 00:00:00','4','',null);\
    InsElem('w','2011-01-05 00:00:00','5','',null);\
    CreateCalendar(k, 'startdate(2011-01-02 00:00:00),pattstart(2011-01-02 00:00:00),pattern({1 on},day)');";

/// The page is split in the middle, both become one again, and so once more at the end by a range; the calendar is
/// dropped.
const MOVING: [(&[u8], &[u8], &[u8]); 5] = [
    (
        b"InsElem('w','2011-01-03 12:00:00','6','',null);",
        b"ok 2011-01-03 12:00:00.00000\n",
        b"error 23 Duplicate\n",
    ),
    (b"DelElem('w','2011-01-02 00:00:00');", b"ok 1\n", b"ok 0\n"),
    (
        b"InsElem('w','2011-01-07 00:00:00','7','',null);",
        b"ok 2011-01-07 00:00:00.00000\n",
        b"error 23 Duplicate\n",
    ),
    (
        b"DelClip('w','2011-01-04 00:00:00','2011-01-05 00:00:00');",
        b"ok 2\n",
        b"ok 0\n",
    ),
    (b"DropCalendar(k);", b"ok\n", b"error 10 UnknownName\n"),
];

/// Reads all that `MOVING` leaves.
const LEFT: &[u8] = b"TSContainerUsage(c2);ListSeries(c2);GetElem('w','2011-01-01 00:00:00');\
    GetElem('w','2011-01-03 00:00:00');GetElem('w','2011-01-03 12:00:00');GetLastElem('w');";

const LEFT_READ: &[u8] =
    b"ok 1 8\n'w' irregular 4\nok 1\n2011-01-01 00:00:00.00000 '1','',null\nok 1\n\
    2011-01-03 00:00:00.00000 '3','',null\nok 1\n2011-01-03 12:00:00.00000 '6','',null\nok 1\n\
    2011-01-07 00:00:00.00000 '7','',null\nok 1\n";

const MOVED: Course = Course {
    statements: &MOVING,
    reading: LEFT,
    read: LEFT_READ,
};

#[test]
fn so_does_a_stop_where_pages_are_split_and_joined(rt: HostRuntime) -> Result<(), Fail> {
    assert!(rt; stops(&rt, rt.alloc(), &MOVED, FULL, 0, &PICKS)?);
    Ok(())
}

// Whether a volume holds a series with its element or, where it can be gone, neither.
fn holds_or_lacks(
    rt: &(impl Threads + Sync),
    alloc: Global,
    bytes: Vec<u8>,
    must_lack: bool,
) -> Result<bool, Fail> {
    let mut sites = vec![in alloc; MemorySite::new(bytes)?]?;
    let site = only(&mut sites)?;
    let script = b"GetElem('x','2011-01-03 00:00:00');ListSeries(c1);";
    let status = run(rt, alloc, site, script)?;
    let holds = site.said()
        == b"2011-01-03 00:00:00.00000 1\nok 1\n'x' irregular 1\n'y' irregular 0\nok 2\n".as_slice();
    let lacks = site.said() == b"error 10 UnknownName\n'y' irregular 0\nok 1\n".as_slice();
    Ok(status == 0 && (lacks || holds && !must_lack))
}

// Runs that drop a series, each stopped at the call of one number, with half of each write made. The calls from 1 on,
// so many, only read.
#[test]
fn a_stop_in_a_drop(rt: HostRuntime) -> Result<(), Fail> {
    let alloc = rt.alloc();
    let bytes = bytes_after(
        &rt,
        alloc,
        b"CreateRowType(rd, t datetime, v integer);TSContainerCreate(c1, rd, 8);\
          TSCreateIrr('x', c1); TSCreateIrr('y', c1);InsElem('x','2011-01-03 00:00:00',1);",
    )?;
    let reads = reads(&rt, alloc, "8")?;
    for call in 0..reads.saturating_add(100) {
        if 1 <= call && call <= reads {
            continue;
        }
        let mut sites = vec![in alloc; MemorySite::new(Vec::from_slice(alloc, &bytes)?)?]?;
        let site = only(&mut sites)?;
        site.fuse(call);
        run(&rt, alloc, site, b"DropSeries('x');")?;
        let is_said = site.said() == b"ok\n".as_slice();
        if site.calls() <= call {
            assert!(rt; call > reads.saturating_add(2) && is_said);
            return Ok(());
        }
        assert!(rt; holds_or_lacks(&rt, alloc, site.image(call, Pick::Half)?, is_said)?);
    }
    Err(Fail::from("the run has no end"))
}

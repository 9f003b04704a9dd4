// Calls that fail, each in turn: the status names what failed, nothing is said behind a failure, and an opening
// afterwards finds what was acknowledged, or that and the next statement.
ghost use Rattle.std.specs.Prelude.{◌<◌};
ghost use Rattle.ts_disk.specs.Memory.{site_calls};

use std::alloc::Global;
use std::test::Fail;
use std::thread::Threads;
use ts_disk::{MemorySite, MemorySource, Pick};
use ts_programs::{
    Course, bytes_of, carried_out, is_after, only, reads, run, said_of, script_of, states_of,
    status, volume, whole_replies,
};

const SIX: Course = Course {
    statements: &[
        (b"CreateRowType(rd, t datetime, v integer);", b"ok\n"),
        (b"TSContainerCreate(c1, rd, 8);", b"ok\n"),
        (b"TSCreateIrr('x', c1);", b"ok\n"),
        (
            b"InsElem('x','2011-01-03 00:00:00',1);",
            b"ok 2011-01-03 00:00:00.00000\n",
        ),
        (
            b"UpdElem('x','2011-01-03 00:00:00',2);",
            b"ok 2011-01-03 00:00:00.00000\n",
        ),
        (b"DelElem('x','2011-01-03 00:00:00');", b"ok 1\n"),
    ],
    reading: b"GetElem('x','2011-01-03 00:00:00');ListSeries(c1);CreateRowType(rd, t datetime, v integer);",
};

// The numbers of the calls that say the replies: of a run of so many statements it is the last call.
fn says(
    rt: &(impl Threads + Sync),
    alloc: Global,
    course: &Course,
    bytes: &[u8],
) -> Result<Vec<u64>, Fail> {
    let mut numbers = Vec::new(alloc);
    for count in 0..course.statements.len() {
        let site = carried_out(rt, alloc, course, bytes, count.saturating_add(1))?;
        numbers.push(site.calls().saturating_sub(1))?;
    }
    Ok(numbers)
}

// Whether the bytes that a failed run left, and what a stop behind it leaves, are as after what was acknowledged, or
// the next statement too.
fn leaves_what_was_said(
    rt: &(impl Threads + Sync),
    alloc: Global,
    course: &Course,
    states: &[Vec<u8>],
    site: &mut MemorySite,
) -> Result<bool, Fail> {
    let count = whole_replies(site.said());
    let mut all = is_after(rt, alloc, course, states, bytes_of(alloc, site)?, count)?;
    // The reading of the bytes is the last call, which leaves what was pending.
    let last = site.calls().saturating_sub(1);
    for pick in [Pick::Old, Pick::New, Pick::Half] {
        if last < site.calls() {
            let image = site.image(last, pick)?;
            all = all && is_after(rt, alloc, course, states, image, count)?;
        }
    }
    Ok(all)
}

// Runs of a course over a volume of these bytes, in each of which the call of one number fails. The calls from 1 on, so
// many, only read, and where one of them fails each byte stays.
fn all_fail_well(
    rt: &(impl Threads + Sync),
    alloc: Global,
    course: &Course,
    bytes: &[u8],
) -> Result<bool, Fail> {
    let states = states_of(rt, alloc, course, bytes)?;
    let says = says(rt, alloc, course, bytes)?;
    let count = course.statements.len();
    let script = script_of(alloc, course, count)?;
    let calls = carried_out(rt, alloc, course, bytes, count)?.calls();
    let reads = reads(rt, alloc, "8")?;
    for call in 0..calls {
        let mut sites = vec![in alloc; MemorySite::new(Vec::from_slice(alloc, bytes)?)?]?;
        let site = only(&mut sites)?;
        site.fail(call)?;
        let wanted = if says.contains(&call) { 4 } else { 5 };
        let before = says.iter().filter(|say| **say < call).count();
        if run(rt, alloc, site, &script)? != wanted
            || site.calls() != call.saturating_add(1)
            || site.said() != said_of(alloc, course, before)?.as_slice()
        {
            return Ok(false);
        }
        let is_left = if 1 <= call && call <= reads {
            bytes_of(alloc, site)?.as_slice() == bytes
        } else {
            leaves_what_was_said(rt, alloc, course, &states, site)?
        };
        if !is_left {
            return Ok(false);
        }
    }
    Ok(calls > reads.saturating_add(20))
}

#[test]
fn each_call_that_fails_ends_the_run_with_its_status(rt: HostRuntime) -> Result<(), Fail> {
    let alloc = rt.alloc();
    let bytes = bytes_of(alloc, &mut volume(&rt, alloc, "8")?)?;
    assert!(rt; all_fail_well(&rt, alloc, &SIX, &bytes)?);
    Ok(())
}

/// The second statement is cut off by the end of the source.
const UNENDED: &[u8] = b"InsElem('x','2011-01-03 00:00:00',1); GetEl";

const COUNT: &[u8] = b"GetNelems('x');";

// What an opening finds in a volume: how many elements the series has.
fn count_in(rt: &(impl Threads + Sync), alloc: Global, bytes: Vec<u8>) -> Result<Vec<u8>, Fail> {
    let mut sites = vec![in alloc; MemorySite::new(bytes)?]?;
    let site = only(&mut sites)?;
    run(rt, alloc, site, COUNT)?;
    Ok(Vec::from_slice(alloc, site.said())?)
}

// A volume with two series that nothing was done with yet in this site.
fn two_series(rt: &(impl Threads + Sync), alloc: Global) -> Result<MemorySite, Fail> {
    let mut sites = vec![in alloc; volume(rt, alloc, "8")?]?;
    let site = only(&mut sites)?;
    run(
        rt,
        alloc,
        site,
        b"CreateRowType(rd, t datetime, v integer);TSContainerCreate(c1, rd, 8);\
        TSCreateIrr('x', c1); TSCreateIrr('y', c1);",
    )?;
    Ok(MemorySite::new(bytes_of(alloc, site)?)?)
}

#[test]
fn a_script_that_is_cut_off_says_so(rt: HostRuntime) -> Result<(), Fail> {
    let alloc = rt.alloc();
    let mut sites = vec![in alloc; two_series(&rt, alloc)?]?;
    let site = only(&mut sites)?;
    assert_eq!(rt; run(&rt, alloc, site, UNENDED)?, 0);
    assert_eq!(rt;
        site.said(),
        b"ok 2011-01-03 00:00:00.00000\nerror 3 Unended\n".as_slice()
    );
    Ok(())
}

// The first pull fails before anything was done.
#[test]
fn a_first_pull_that_fails_leaves_the_volume(rt: HostRuntime) -> Result<(), Fail> {
    let alloc = rt.alloc();
    let mut sites = vec![in alloc; two_series(&rt, alloc)?]?;
    let site = only(&mut sites)?;
    let mut source = MemorySource::new(Vec::from_slice(alloc, UNENDED)?, 7);
    source.fail(0)?;
    assert_eq!(rt; status(&rt, alloc, &["run"], site, &mut source)?, 3);
    assert_eq!(rt; site.said(), b"".as_slice());
    let bytes = bytes_of(alloc, site)?;
    assert_eq!(rt;
        count_in(&rt, alloc, bytes)?.as_slice(),
        b"ok 0\n".as_slice()
    );
    Ok(())
}

// The say comes when the element is durable; the sync is the opening's, which comes before all else.
#[test]
fn a_first_say_or_sync_that_fails_leaves_one_or_none(rt: HostRuntime) -> Result<(), Fail> {
    let alloc = rt.alloc();
    let mut whole = two_series(&rt, alloc)?;
    run(
        &rt,
        alloc,
        &mut whole,
        b"InsElem('x','2011-01-03 00:00:00',1);",
    )?;
    let say = whole.calls().saturating_sub(1);
    for (number, wanted, found) in [(say, 4, b"ok 1\n"), (0, 5, b"ok 0\n")] {
        let mut sites = vec![in alloc; two_series(&rt, alloc)?]?;
        let site = only(&mut sites)?;
        site.fail(number)?;
        assert_eq!(rt; run(&rt, alloc, site, UNENDED)?, wanted);
        assert_eq!(rt; site.said(), b"".as_slice());
        let bytes = bytes_of(alloc, site)?;
        assert_eq!(rt; count_in(&rt, alloc, bytes)?.as_slice(), found.as_slice());
    }
    Ok(())
}

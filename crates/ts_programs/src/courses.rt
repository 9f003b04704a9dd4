// Statements that are carried out one after the other, and what a reading says after each number of them: so a volume
// is known by what is read there.
use crate::program::{bytes_of, run};
use std::alloc::Global;
use std::test::Fail;
use std::thread::Threads;
use ts_disk::MemorySite;

/// Statements and what is said to each, one line; and a reading that tells apart what they leave.
#[derive(Clone, Copy)]
pub struct Course<'a> {
    pub statements: &'a [(&'a [u8], &'a [u8])],
    pub reading: &'a [u8],
}

/// The first statements, so many.
pub fn script_of(alloc: Global, course: &Course, count: usize) -> Result<Vec<u8>, Fail> {
    let mut script = Vec::new(alloc);
    for (statement, _) in course.statements.iter().take(count) {
        script.extend_from_slice(statement)?;
    }
    Ok(script)
}

/// What is said to the first statements, so many.
pub fn said_of(alloc: Global, course: &Course, count: usize) -> Result<Vec<u8>, Fail> {
    let mut said = Vec::new(alloc);
    for (_, reply) in course.statements.iter().take(count) {
        said.extend_from_slice(reply)?;
    }
    Ok(said)
}

/// A site over these bytes, on which the first statements were carried out, so many.
pub fn carried_out(
    rt: &(impl Threads + Sync),
    alloc: Global,
    course: &Course,
    bytes: &[u8],
    count: usize,
) -> Result<MemorySite, Fail> {
    let mut site = MemorySite::new(Vec::from_slice(alloc, bytes)?)?;
    let script = script_of(alloc, course, count)?;
    if run(rt, alloc, &mut site, &script)? != 0 {
        return Err(Fail::from("the course failed"));
    }
    if site.said() != said_of(alloc, course, count)?.as_slice() {
        return Err(Fail::from("another reply"));
    }
    Ok(site)
}

/// What the reading says of a volume of these bytes; nothing where it isn't opened.
pub fn reading_of(
    rt: &(impl Threads + Sync),
    alloc: Global,
    course: &Course,
    bytes: Vec<u8>,
) -> Result<Vec<u8>, Fail> {
    let mut site = MemorySite::new(bytes)?;
    if run(rt, alloc, &mut site, course.reading)? != 0 {
        return Ok(Vec::new(alloc));
    }
    Ok(Vec::from_slice(alloc, site.said())?)
}

/// What the reading says after each number of statements, from none on, over a volume of these bytes.
pub fn states_of(
    rt: &(impl Threads + Sync),
    alloc: Global,
    course: &Course,
    bytes: &[u8],
) -> Result<Vec<Vec<u8>>, Fail> {
    let mut states = Vec::new(alloc);
    for count in 0..course.statements.len().saturating_add(1) {
        let mut site = carried_out(rt, alloc, course, bytes, count)?;
        states.push(reading_of(rt, alloc, course, bytes_of(alloc, &mut site)?)?)?;
    }
    Ok(states)
}

/// How many replies were said in whole: each has one line.
pub fn whole_replies(said: &[u8]) -> usize {
    said.iter().filter(|byte| **byte == b'\n').count()
}

/// Whether a volume of these bytes is as after so many statements, or after one more.
pub fn is_after(
    rt: &(impl Threads + Sync),
    alloc: Global,
    course: &Course,
    states: &[Vec<u8>],
    bytes: Vec<u8>,
    count: usize,
) -> Result<bool, Fail> {
    let read = reading_of(rt, alloc, course, bytes)?;
    let now = states.get(count).is_some_and(|state| *state == read);
    let next = states
        .get(count.saturating_add(1))
        .is_some_and(|state| *state == read);
    Ok(now || next)
}

// A site in memory, which keeps its first bytes and each call.
ghost use Rattle.std.specs.Prelude.{◌≡◌, ◌+◌, ◌≤◌, ◌<◌, ◌⊎◌, ℕ, List, length, OnOk, OnErr, IfOk, IsErr, IsTrue, []};
ghost use Rattle.std.specs.Prelude.{◌∷◌, ◌++◌, true, vec_capacity, vec_len, IsOk, replicate, ◌-◌, take, drop, ◌^◌};
ghost use Rattle.ts_disk.specs.Replay.{events_of, used_by, run, fresh, IsOfBytes};
ghost use Rattle.ts_disk.specs.Replay.{State, after_call, used, put};
ghost use Rattle.ts_disk.specs.Picks.{pick_write, pick_grow, pick_within, pick_after};
ghost use Rattle.ts_disk.specs.Device.{AreBytes, Rose, overwritten};

use crate::calls::{Call, Pick};
use crate::{Failed, SayFailed, Site, Volume, raise};
use std::alloc::{AllocError, Global};

/// A volume and an output in memory. It keeps its first bytes and the list of its calls, so that what a stop leaves
/// within any of them is a function of plain data.
///
/// Calls are numbered from 0. A call that finds no memory to be kept fails, is not kept and takes no number.
#[derive(Drop)]
pub struct MemorySite {
    first: Vec<u8>,
    calls: Vec<Call>,
    /// The bytes that were written and said, one call behind the other.
    tape: Vec<u8>,
    /// The bytes held.
    bytes: Vec<u8>,
    said: Vec<u8>,
    faults: u64,
    say_faults: u64,
    /// The numbers of the calls that are to fail, and the number from which on all are.
    failing: Vec<u64>,
    fuse: u64,
    ghost taped: { used_by calls.items ≡ length tape.items },
    ghost held: { bytes.items ≡ (run (fresh first.items) (events_of calls.items tape.items)).held },
    ghost small: { IsOfBytes (run (fresh first.items) (events_of calls.items tape.items)) },
    ghost told: { said.items ≡ (run (fresh first.items) (events_of calls.items tape.items)).said },
}

impl MemorySite {
    ghost use Rattle.ts_disk.specs.Memory.{site_device, site_calls, site_log, failing_calls, fuse_of, next_fails};
    ghost use Rattle.ts_disk.specs.Memory.{spare_calls, spare_bytes, SameRoom, image_at, state_before};
    ghost use Rattle.ts_disk.specs.Replay.{IsImage};
    ghost use Rattle.ts_disk.specs.Device.{Only};

    /// A site that holds these bytes, with nothing pending.
    pub fn new(bytes: Vec<u8>) -> Result<MemorySite, AllocError>
        ensures held { IfOk result (λ m. (site_device m).held ≡ bytes.items) }
        ensures settled { IfOk result (λ m. Only (site_device m).held (site_device m).images) }
        // No call was made, none failed, and none is to fail.
        ensures log { IfOk result (λ m. site_log m ≡ (bytes.items, [], 0, 0)) }
        ensures failing { IfOk result (λ m. failing_calls m ≡ []) }
        ensures fuse { IfOk result (λ m. fuse_of m ≡ u64.MAX) }
    {
        let alloc = *bytes.allocator();
        Ok(MemorySite {
            first: bytes.to_vec(alloc)?,
            calls: Vec::new(alloc),
            tape: Vec::new(alloc),
            bytes,
            said: Vec::new(alloc),
            faults: 0,
            say_faults: 0,
            failing: Vec::new(alloc),
            fuse: u64::MAX,
        })
    }

    /// Lets the call of that number fail.
    pub fn fail(&mut self, call: u64) -> Result<(), AllocError>
        ensures log { site_log self.new ≡ site_log self.old }
        ensures failing { OnOk result (failing_calls self.new ≡ failing_calls self.old ++ call ∷ []) }
        ensures err { OnErr result (failing_calls self.new ≡ failing_calls self.old) }
        ensures fuse { fuse_of self.new ≡ fuse_of self.old }
        ensures room { SameRoom self.old self.new }
    {
        self.failing.push(call)?;
        Ok(())
    }

    /// Lets the first calls pass, so many, and each later one fail.
    pub fn fuse(&mut self, calls: u64)
        ensures log { site_log self.new ≡ site_log self.old }
        ensures failing { failing_calls self.new ≡ failing_calls self.old }
        ensures fuse { fuse_of self.new ≡ calls }
        ensures room { SameRoom self.old self.new }
    {
        self.fuse = calls;
    }

    /// Takes memory for so many calls more that write, say or add so many bytes.
    pub fn reserve(&mut self, calls: u64, bytes: u64) -> Result<(), AllocError>
        ensures log { site_log self.new ≡ site_log self.old }
        ensures calls { OnOk result (calls ≤ spare_calls self.new) }
        ensures bytes { OnOk result (bytes ≤ spare_bytes self.new) }
        ensures failing { failing_calls self.new ≡ failing_calls self.old }
        ensures fuse { fuse_of self.new ≡ fuse_of self.old }
    {
        self.calls.reserve(calls as usize)?;
        self.tape.reserve(bytes as usize)?;
        self.bytes.reserve(bytes as usize)?;
        self.said.reserve(bytes as usize)
    }

    /// What a stop within the call of that number leaves, by one choice for all unsynced ranges.
    pub fn image(&self, moment: u64, pick: Pick) -> Result<Vec<u8>, AllocError>
        requires { moment < site_calls self.now }
        ensures exact { IfOk result (λ v. v.items ≡ image_at self.now moment pick) }
        ensures is_image { IfOk result (λ v. IsImage (state_before self.now moment) v.items
            ⊎ IsImage (state_before self.now (moment + 1)) v.items) }
    {
        let alloc = *self.first.allocator();
        let mut held = self.first.to_vec(alloc)?;
        let mut image = self.first.to_vec(alloc)?;
        let mut place = 0;
        for i in 0..moment as usize {
            let call = self.calls[i];
            let count = used(call);
            let bytes = part(&self.tape, place, count);
            pick_after(&mut image, pick, call, bytes, &held)?;
            all_bytes(&image);
            hold(&mut held, call, bytes)?;
            place += count;
        }
        let call = self.calls[moment as usize];
        let bytes = part(&self.tape, place, used(call));
        pick_within(&mut image, pick, call, bytes)?;
        all_bytes(&image);
        Ok(image)
    }

    // Whether the next call is to fail.
    fn is_next_to_fail(&self) -> bool
        ensures { result ≡ next_fails self.now }
    {
        let number = self.calls.len() as u64;
        self.failing.contains(&number) || self.fuse <= number
    }

    pub fn calls(&self) -> u64
        ensures { result ≡ site_calls self.now }
    {
        self.calls.len() as u64
    }

    pub fn said(&self) -> &[u8]
        ensures { result.now ≡ (site_device self.now).said }
    {
        &self.said
    }
}

// Keeps a call with its bytes, or counts a failure and leaves both lists.
fn note<E>(
    calls: &mut Vec<Call>,
    tape: &mut Vec<u8>,
    count: &mut u64,
    call: Call,
    bytes: &[u8],
    failure: E,
) -> Result<(), E>
where
    E: Drop,
    ensures calls { OnOk result (calls.new.items ≡ calls.old.items ++ call ∷ []) }
    ensures tape { OnOk result (tape.new.items ≡ tape.old.items ++ bytes.now) }
    ensures count { OnOk result (count.new ≡ count.old) }
    ensures calls_stay { OnErr result (calls.new.items ≡ calls.old.items) }
    ensures tape_stays { OnErr result (tape.new.items ≡ tape.old.items) }
    ensures rose { OnErr result (Rose count.old count.new) }
    ensures no_less { count.old ≤ count.new }
    ensures room { vec_len calls.old < vec_capacity calls.old
        → vec_len tape.old + length bytes.now ≤ vec_capacity tape.old → IsOk result }
    ensures calls_room { vec_capacity calls.old ≤ vec_capacity calls.new }
    ensures tape_room { vec_capacity tape.old ≤ vec_capacity tape.new }
    ensures calls_len { vec_len calls.new ≤ vec_len calls.old + 1 }
    ensures tape_len { vec_len tape.new ≤ vec_len tape.old + length bytes.now }
{
    if calls.reserve(1).is_err() || tape.extend_from_slice(bytes).is_err() {
        raise(count);
        return Err(failure);
    }
    let kept = calls.push(call).is_ok();
    prove!(kept);
    Ok(())
}

fn overwrite(bytes: &mut Vec<u8>, at: usize, from: &[u8])
    requires { at + length from.now ≤ length bytes.old.items }
    ensures items { bytes.new.items ≡ overwritten at from.now bytes.old.items }
    ensures len { vec_len bytes.new ≡ vec_len bytes.old }
    ensures room { vec_capacity bytes.new ≡ vec_capacity bytes.old }
{
    bytes[at..at + from.len()].copy_from_slice(from);
}

fn copy_out(bytes: &[u8], at: usize, into: &mut [u8])
    requires { at + length into.old ≤ length bytes.now }
    ensures { into.new ≡ take (length into.new) (drop at bytes.now) }
{
    into.copy_from_slice(&bytes[at..at + into.len()]);
}

// Fills up with zeros, in room that is there.
fn lengthen(bytes: &mut Vec<u8>, len: usize)
    requires longer { length bytes.old.items ≤ len }
    requires room { len ≤ vec_capacity bytes.old }
    ensures items { bytes.new.items ≡ bytes.old.items ++ replicate (len - length bytes.old.items) 0 }
    ensures len { vec_len bytes.new ≡ len }
    ensures room { vec_capacity bytes.old ≤ vec_capacity bytes.new }
{
    let done = bytes.resize(len, 0).is_ok();
    prove!(done);
}

// Appends, in room that is there.
fn append(bytes: &mut Vec<u8>, piece: &[u8])
    requires { length bytes.old.items + length piece.now ≤ vec_capacity bytes.old }
    ensures items { bytes.new.items ≡ bytes.old.items ++ piece.now }
    ensures len { vec_len bytes.new ≡ vec_len bytes.old + length piece.now }
    ensures room { vec_capacity bytes.old ≤ vec_capacity bytes.new }
{
    let done = bytes.extend_from_slice(piece).is_ok();
    prove!(done);
}

fn part(tape: &[u8], place: usize, count: usize) -> &[u8]
    requires { place + count ≤ length tape.now }
    ensures bytes { result.now ≡ take count (drop place tape.now) }
    ensures fits { place + count < 2 ^ 64 }
{
    &tape[place..place + count]
}

// What their type says of them.
fn all_bytes(bytes: &[u8])
    ensures { AreBytes bytes.now }
{}

// Writes the bytes as far as the file goes.
fn put(image: &mut Vec<u8>, at: u64, bytes: &[u8])
    ensures { image.new.items ≡ put at bytes.now image.old.items }
{
    let at = at as usize;
    if at < image.len() {
        let count = bytes.len().min(image.len() - at);
        overwrite(image, at, &bytes[..count]);
    }
}

fn put_fill(image: &mut Vec<u8>, at: u64, count: usize, byte: u8) -> Result<(), AllocError>
    ensures { OnOk result (image.new.items ≡ put at (replicate count byte) image.old.items) }
{
    let mut bytes = Vec::new(*image.allocator());
    bytes.resize(count, byte)?;
    put(image, at, &bytes);
    Ok(())
}

fn pick_write(image: &mut Vec<u8>, pick: Pick, at: u64, bytes: &[u8]) -> Result<(), AllocError>
    ensures { OnOk result (image.new.items ≡ pick_write pick at bytes.now image.old.items) }
{
    match pick {
        Pick::Old => {}
        Pick::New => put(image, at, bytes),
        Pick::Half => put(image, at, &bytes[..bytes.len() / 2]),
        Pick::Fill(byte) => put_fill(image, at, bytes.len(), byte)?,
    }
    Ok(())
}

// Fills up to the length, if it is longer.
fn fill_up(image: &mut Vec<u8>, len: u64, byte: u8) -> Result<(), AllocError>
    ensures { OnOk result (image.new.items ≡ image.old.items ++ replicate (len - length image.old.items) byte) }
{
    let len = len as usize;
    if len > image.len() {
        image.resize(len, byte)?;
    }
    Ok(())
}

fn pick_grow(image: &mut Vec<u8>, pick: Pick, len: u64) -> Result<(), AllocError>
    ensures { OnOk result (image.new.items ≡ pick_grow pick len image.old.items) }
{
    match pick {
        Pick::Old => Ok(()),
        Pick::New | Pick::Half => fill_up(image, len, 0),
        Pick::Fill(byte) => fill_up(image, len, byte),
    }
}

fn used(call: Call) -> usize
    ensures { result ≡ used call }
{
    match call {
        Call::Write(_, n, _) | Call::Say(n, _) => n as usize,
        _ => 0,
    }
}

fn pick_within(image: &mut Vec<u8>, pick: Pick, call: Call, bytes: &[u8]) -> Result<(), AllocError>
    ensures { OnOk result (image.new.items ≡ pick_within pick call bytes.now image.old.items) }
{
    match call {
        Call::Resize(len, _) => pick_grow(image, pick, len)?,
        Call::Write(at, _, _) => pick_write(image, pick, at, bytes)?,
        _ => {}
    }
    Ok(())
}

// The bytes held after a call.
fn hold(held: &mut Vec<u8>, call: Call, bytes: &[u8]) -> Result<(), AllocError>
    ensures { OnOk result ((s : State) → s.held ≡ held.old.items
        → held.new.items ≡ (after_call call bytes.now s).held) }
{
    match call {
        Call::Resize(len, true) => fill_up(held, len, 0)?,
        Call::Write(at, _, true) => put(held, at, bytes),
        _ => {}
    }
    Ok(())
}

fn pick_after(
    image: &mut Vec<u8>,
    pick: Pick,
    call: Call,
    bytes: &[u8],
    held: &[u8],
) -> Result<(), AllocError>
    ensures { OnOk result (image.new.items ≡ pick_after pick call bytes.now held.now image.old.items) }
{
    match call {
        Call::Sync(true) => {
            image.clear();
            image.extend_from_slice(held)?;
        }
        _ => pick_within(image, pick, call, bytes)?,
    }
    Ok(())
}

impl Volume for MemorySite {
    ghost use Rattle.ts_disk.specs.Memory.{site_device, spare_calls, spare_bytes, next_fails, Keeps, FailsSo};
    ghost use Rattle.ts_disk.specs.Device.{Resized, ReadAt, WrittenAt, Synced};
    ghost use Rattle.ts_disk.specs.declared.calls.Call.TheVariants.{Resize, Read, Write, Sync};
    ghost use Rattle.ts_disk.specs.ReplayLaws.{lawful_replay};

    ghost tells = { true };

    ghost device = { site_device };

    ghost lawful = { λ m. lawful_replay m.first.items (events_of m.calls.items m.tape.items) m.faults m.say_faults m.small };

    fn len(&self) -> u64 {
        self.bytes.len() as u64
    }

    fn faults(&self) -> u64 {
        self.faults
    }

    fn resize(&mut self, bytes: u64) -> Result<(), Failed>
        requires no_shorter { (site_device self.old).size ≤ bytes }
        requires limit { bytes ≤ 272244736 }
        ensures resized { Resized true bytes result (site_device self.old) (site_device self.new) }
        ensures kept { Keeps (Resize bytes) [] (bytes - (site_device self.old).size) self.old self.new }
        ensures fails { FailsSo (bytes - (site_device self.old).size) result self.old self.new }
    {
        let fails = self.is_next_to_fail();
        let length = bytes as usize;
        if self.bytes.reserve(length - self.bytes.len()).is_err() {
            raise(&mut self.faults);
            return Err(Failed);
        }
        let call = Call::Resize(bytes, !fails);
        note(
            &mut self.calls,
            &mut self.tape,
            &mut self.faults,
            call,
            &[],
            Failed,
        )?;
        if fails {
            raise(&mut self.faults);
            return Err(Failed);
        }
        lengthen(&mut self.bytes, length);
        Ok(())
    }

    fn read_at(&mut self, at: u64, into: &mut [u8]) -> Result<(), Failed>
        requires { at + length into.old ≤ (site_device self.old).size }
        ensures read { ReadAt true at into.new result (site_device self.old) (site_device self.new) }
        ensures kept { Keeps Read [] 0 self.old self.new }
        ensures fails { FailsSo 0 result self.old self.new }
    {
        let fails = self.is_next_to_fail();
        let call = Call::Read(!fails);
        note(
            &mut self.calls,
            &mut self.tape,
            &mut self.faults,
            call,
            &[],
            Failed,
        )?;
        if fails {
            raise(&mut self.faults);
            return Err(Failed);
        }
        copy_out(&self.bytes, at as usize, into);
        Ok(())
    }

    fn write_at(&mut self, at: u64, from: &[u8]) -> Result<(), Failed>
        requires { at + length from.now ≤ (site_device self.old).size }
        ensures written { WrittenAt true at from.now result (site_device self.old) (site_device self.new) }
        ensures kept { Keeps (Write at (length from.now)) from.now (length from.now) self.old self.new }
        ensures fails { FailsSo (length from.now) result self.old self.new }
    {
        let fails = self.is_next_to_fail();
        let call = Call::Write(at, from.len() as u64, !fails);
        note(
            &mut self.calls,
            &mut self.tape,
            &mut self.faults,
            call,
            from,
            Failed,
        )?;
        if fails {
            raise(&mut self.faults);
            return Err(Failed);
        }
        overwrite(&mut self.bytes, at as usize, from);
        Ok(())
    }

    fn sync(&mut self) -> Result<(), Failed>
        ensures synced { Synced true result (site_device self.old) (site_device self.new) }
        ensures kept { Keeps Sync [] 0 self.old self.new }
        ensures fails { FailsSo 0 result self.old self.new }
    {
        let fails = self.is_next_to_fail();
        let call = Call::Sync(!fails);
        note(
            &mut self.calls,
            &mut self.tape,
            &mut self.faults,
            call,
            &[],
            Failed,
        )?;
        if fails {
            raise(&mut self.faults);
            return Err(Failed);
        }
        Ok(())
    }
}

impl Site for MemorySite {
    ghost use Rattle.ts_disk.specs.Memory.{site_device, Keeps, FailsSo};
    ghost use Rattle.ts_disk.specs.Device.{Says};
    ghost use Rattle.ts_disk.specs.declared.calls.Call.TheVariants.{Say};

    fn say(&mut self, piece: &[u8]) -> Result<(), SayFailed>
        ensures says { Says true piece.now result (site_device self.old) (site_device self.new) }
        ensures kept { Keeps (Say (length piece.now)) piece.now (length piece.now) self.old self.new }
        ensures fails { FailsSo (length piece.now) result self.old self.new }
    {
        let fails = self.is_next_to_fail();
        if self.said.reserve(piece.len()).is_err() {
            raise(&mut self.say_faults);
            return Err(SayFailed);
        }
        let call = Call::Say(piece.len() as u64, !fails);
        note(
            &mut self.calls,
            &mut self.tape,
            &mut self.say_faults,
            call,
            piece,
            SayFailed,
        )?;
        if fails {
            raise(&mut self.say_faults);
            return Err(SayFailed);
        }
        append(&mut self.said, piece);
        Ok(())
    }
}

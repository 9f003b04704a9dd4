// The report on a volume that means a catalogue, and the line on one that means none.
ghost use Rattle.std.specs.Prelude.{◌≡◌, ◌+◌, ◌<◌, ◌^◌, ◌++◌, OnOk, decimal, length};
ghost use Rattle.ts_space.specs.Directory.{used_of};
ghost use Rattle.ts_model.specs.Definitions.{at_slot, container_slots, series_slots};
ghost use Rattle.ts_layout.specs.Charges.{AreCountable};
ghost use Rattle.ts_check.specs.Report.{container_line, pages_line, bad_line};
ghost use Rattle.ts_check.specs.Listed.{is_of, count_of_series, line_at, lines_in_order};

use itoa::Buffer;
use std::alloc::AllocError;
use ts_base::Reply;
use ts_container::Charges;
use ts_model::{Def, Defs, Kind};

/// Says the lines of all containers, in the order of their names.
pub(crate) fn say_containers(
    defs: &Defs,
    charges: &Charges,
    out: &mut Reply,
) -> Result<(), AllocError>
    ensures { OnOk result (out.new ≡ out.old ++ lines_in_order defs.now.definitions charges.now) }
{
    for slot in defs.in_order(Kind::Container) {
        say_container(defs, charges, *slot, out)?;
    }
    Ok(())
}

// Says the line of the container in a slot, if there is one.
fn say_container(
    defs: &Defs,
    charges: &Charges,
    slot: u16,
    out: &mut Reply,
) -> Result<(), AllocError>
    requires slot { slot < container_slots }
    ensures { OnOk result (out.new ≡ out.old ++ line_at defs.now.definitions charges.now slot) }
{
    match defs.get(Kind::Container, slot) {
        Some(Def::Container { name, quota, .. }) => say_container_line(
            out,
            name.as_slice(),
            charges.of(slot as u8),
            *quota,
            count_series(defs, slot),
        ),
        _ => Ok(()),
    }
}

#[tactic(auto, unfolding(crate::specs::Report::container_line))]
fn say_container_line(
    out: &mut Reply,
    name: &[u8],
    charge: u64,
    quota: u32,
    series: u64,
) -> Result<(), AllocError>
    ensures { OnOk result (out.new ≡ out.old ++ container_line name.now charge quota series) }
{
    out.extend_from_slice(b"container ")?;
    out.extend_from_slice(name)?;
    out.extend_from_slice(b" charge ")?;
    say_number(out, charge)?;
    out.extend_from_slice(b" of ")?;
    say_number(out, quota as u64)?;
    out.extend_from_slice(b" series ")?;
    say_number(out, series)?;
    out.extend_from_slice(b"\n")
}

// How many series stand in the container of a slot.
fn count_series(defs: &Defs, container: u16) -> u64
    ensures { result ≡ count_of_series defs.now.definitions container }
{
    let mut count = 0;
    for slot in defs.in_order(Kind::Series) {
        if is_of(defs, *slot, container) {
            count += 1;
        }
    }
    count
}

// Whether a series is in a slot and stands in the container of another.
fn is_of(defs: &Defs, slot: u16, container: u16) -> bool
    requires slot { slot < series_slots }
    ensures { result ≡ is_of container (at_slot slot defs.now.definitions.series) }
{
    match defs.get(Kind::Series, slot) {
        Some(Def::Series { container: own, .. }) => *own as u16 == container,
        _ => false,
    }
}

/// Says how many element pages aren't free, of so many.
#[tactic(auto, unfolding(crate::specs::Report::pages_line))]
pub(crate) fn say_pages(out: &mut Reply, used: u32, pages: u32) -> Result<(), AllocError>
    ensures { OnOk result (out.new ≡ out.old ++ pages_line used pages) }
{
    out.extend_from_slice(b"ok ")?;
    say_number(out, used as u64)?;
    out.extend_from_slice(b" of ")?;
    say_number(out, pages as u64)?;
    out.extend_from_slice(b"\n")
}

/// Says which page is the first bad one.
#[tactic(auto, unfolding(crate::specs::Report::bad_line))]
pub(crate) fn say_bad(out: &mut Reply, page: u32) -> Result<(), AllocError>
    ensures { OnOk result (out.new ≡ out.old ++ bad_line page) }
{
    out.extend_from_slice(b"bad page ")?;
    say_number(out, page as u64)?;
    out.extend_from_slice(b"\n")
}

// Says a number in decimal digits.
fn say_number(out: &mut Reply, number: u64) -> Result<(), AllocError>
    ensures { OnOk result (out.new ≡ out.old ++ decimal number) }
{
    let mut buffer = Buffer::new();
    out.extend_from_slice(buffer.format(number).as_bytes())
}

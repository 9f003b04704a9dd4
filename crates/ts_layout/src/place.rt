// Where slots stand in the definition pages.
ghost use Rattle.std.specs.Prelude.{◌≡◌, ◌<◌, ◌≤◌, ◌^◌};
ghost use Rattle.ts_model.specs.Definitions.{limit};
ghost use Rattle.ts_page.specs.Pages.{page_size, first_element_page};
ghost use Rattle.ts_layout.specs.Slot.{first_definition_page, slot_size, slots_in_page, page_of_slot, byte_of_slot};

use ts_model::Kind;

/// The definition pages: 64 of row types, 256 of patterns, 256 of calendars, one of all containers, and those of
/// series.
pub const ROW_TYPES: u32 = 257;

const PATTERNS: u32 = 321;

const CALENDARS: u32 = 577;

pub const CONTAINERS: u32 = 833;

const SERIES: u32 = 834;

/// So many slots of series stand in one page.
const SERIES_IN_PAGE: u32 = 43;

/// Slots of one kind that follow one another.
#[derive(Clone, Copy)]
pub struct Slots {
    pub kind: Kind,
    pub first: u16,
    pub count: u16,
}

/// The slots that stand in a definition page.
pub fn slots_in_page(number: u32) -> Slots
    requires low { first_definition_page ≤ number }
    requires high { number < first_element_page }
    ensures { result ≡ slots_in_page number }
{
    if number < PATTERNS {
        return one_slot(Kind::RowType, number - ROW_TYPES);
    }
    if number < CALENDARS {
        return one_slot(Kind::Pattern, number - PATTERNS);
    }
    if number < CONTAINERS {
        return one_slot(Kind::Calendar, number - CALENDARS);
    }
    if number == CONTAINERS {
        return Slots {
            kind: Kind::Container,
            first: 0,
            count: 64,
        };
    }
    let first = SERIES_IN_PAGE * (number - SERIES);
    Slots {
        kind: Kind::Series,
        first: first as u16,
        count: SERIES_IN_PAGE.min(4096 - first) as u16,
    }
}

// A slot that has a page of its own.
fn one_slot(kind: Kind, slot: u32) -> Slots
    requires { slot < 2 ^ 16 }
    ensures { result ≡ record { kind = kind; first = slot; count = 1 } }
{
    Slots {
        kind,
        first: slot as u16,
        count: 1,
    }
}

/// The bytes of a slot.
pub fn slot_size(kind: Kind) -> usize
    ensures value { result ≡ slot_size kind }
    ensures bound { result ≤ page_size }
{
    match kind {
        Kind::RowType | Kind::Pattern | Kind::Calendar => 4096,
        Kind::Container => 60,
        Kind::Series => 94,
    }
}

/// The page of a slot.
pub fn page_of_slot(kind: Kind, slot: u16) -> u32
    requires { slot < limit kind }
    ensures { result ≡ page_of_slot kind slot }
{
    let slot = slot as u32;
    match kind {
        Kind::RowType => ROW_TYPES + slot,
        Kind::Pattern => PATTERNS + slot,
        Kind::Calendar => CALENDARS + slot,
        Kind::Container => CONTAINERS,
        Kind::Series => SERIES + slot / SERIES_IN_PAGE,
    }
}

/// The first byte of a slot in its page.
pub fn byte_of_slot(kind: Kind, slot: u16) -> usize
    requires { slot < limit kind }
    ensures { result ≡ byte_of_slot kind slot }
{
    let slot = slot as usize;
    match kind {
        Kind::RowType | Kind::Pattern | Kind::Calendar => 0,
        Kind::Container => 60 * slot,
        Kind::Series => 94 * (slot % 43),
    }
}

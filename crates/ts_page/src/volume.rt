// The numbers of a volume's layout, each here alone; `specs/Pages` has them for clauses.

/// How many bytes a page has, and how many of them are the head of an element page.
pub const PAGE: u64 = 4096;

pub const HEAD: usize = 32;

/// The journal's region, the pages 1 to 256: where it begins in a volume, and how many bytes it has.
pub const REGION: u64 = 4096;

pub const REGION_BYTES: u32 = 1_048_576;

pub const LAST_REGION_PAGE: u32 = 256;

/// The pages from this one on hold elements.
pub const FIRST_ELEMENT_PAGE: u32 = 930;

//! The survey of a volume, and what containers are charged. A survey reads each page once and keeps the format, the
//! definitions, the directory and the free pages, or tells the first bad page, by the steps of ts_volume
//! (`specs/Survey`). Definitions are judged by their slots and by those before them (`specs/Reading`); the pages of
//! series are sorted once and judged by neighbours (`specs/Spans`). Its parts serve whoever reads the element pages
//! otherwise: `survey_definitions`, `content_of`, `Elements::add` and `finish`. What containers are charged can be kept
//! as sums (`specs/KeptCharges`). What the pages mean is ts_layout's, and ts_slots reads and writes a slot; stands on
//! both, and on ts_volume, ts_cells, ts_regular, ts_space, ts_model and ts_page; knows nothing of disks or commands.
//! Read `specs/Survey.antt`, then `surveyed.rt` and `charges.rt`.
#![tactic(auto)]

mod charges;
mod complete;
mod content;
mod definitions;
mod directory;
mod elements;
mod fault;
mod format;
mod found;
mod hidden;
mod judge;
mod kept_charges;
mod lower;
mod origins;
mod read;
mod rules;
mod shape;
mod sorted;
mod span;
mod surveyed;

pub use charges::charge_of_places;
pub use content::{Content, content_of, row_type_in, row_type_of};
pub use elements::Elements;
pub use fault::SurveyFault;
pub use kept_charges::{
    Charges, a_charge_changes_with_a_series, charges_are_the_same_in_every_format,
};
pub use rules::sum_of_quotas;
pub use shape::shape_of;
pub use span::Span;
pub use surveyed::{Surveyed, finish, survey, survey_definitions};
pub use ts_slots::{is_of_format, put_header, write_header, write_slot};

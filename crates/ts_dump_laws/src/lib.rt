//! The statements that a catalogue is made of (`specs/Statements`), and what carrying them out comes to (`specs/Laws`):
//! laws alone. Carried out on an empty catalogue, one behind the other or in transactions of 32, each is answered and
//! they make the catalogue again (`specs/CarriedOut`), where it keeps what each catalogue of a volume keeps
//! (`specs/Rules`); so they make what the bytes of a volume mean (`specs/Volumes`), and so
//! does the script of their texts (`specs/Said`, over ts_dump_texts). Stands on ts_catalogue_laws for
//! what a volume means, on ts_answer for the answers, on ts_command for the statements, on ts_pattern and
//! ts_calendar for the texts in them. Read `specs/Statements.antt`, then `laws.rt`.
#![tactic(auto)]

mod laws;

pub use laws::{
    a_series_stands_alone, scripts_make_series_of_volumes, scripts_make_their_catalogue,
    scripts_make_what_a_volume_means, statements_make_their_catalogue,
    statements_make_what_a_volume_means, transactions_make_the_catalogue,
};

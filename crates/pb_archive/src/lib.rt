//! What a weather service keeps: its stations, their tables, and each number below a table's front once.
#![tactic(auto)]

mod archive;
mod creation;
mod entry;
mod fault;
mod held;
mod laws;
mod opening;
mod plan;
mod plan_entry;
mod plan_text;
mod row;
mod rows;
mod run;
mod table_view;
mod writing;

pub use archive::Archive;
pub use creation::init;
pub use fault::{ArchiveFault, PlanFault};
pub use held::{ADVANCE_BYTES_MAX, TABLES_MAX};
pub use laws::{
    changes_take_nothing_back, entries_are_one_archive, refused_files_have_no_archive,
    sound_archives_stay_sound,
};
pub use plan::{ADDRESS_MAX, Plan, STATION_NAME_MAX, STATIONS_MAX, StationPlan};
pub use row::Row;
pub use rows::Rows;
pub use table_view::{Stop, TableView};

#[cfg(test)]
mod row_tests;
#[cfg(test)]
mod tests;
#[cfg(test)]
mod writing_tests;

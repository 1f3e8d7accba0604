//! The outside as the layers above see it: where bytes come from and go to.
#![tactic(auto)]

mod change_log;
mod disk;
mod event;
mod failed;
mod fault_plan;
mod history;
mod inbox;
mod mem_disk;
mod mem_sink;
mod mem_site;
mod mem_source;
mod page;
mod settled;
mod sink;
mod site;
mod source;

pub use disk::{Disk, MAX_FILE_LEN};
pub use event::Event;
pub use failed::Failed;
pub use history::history_goes_on;
pub use mem_disk::MemDisk;
pub use mem_sink::MemSink;
pub use mem_site::MemSite;
pub use mem_source::MemSource;
pub use page::{Page, Part};
pub use settled::{cut_settled, write_in_order, write_settled};
pub use sink::{Sink, put_all};
pub use site::Site;
pub use source::Source;

#[cfg(test)]
mod tests;

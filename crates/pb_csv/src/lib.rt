//! The rows of a table of an archive as CSV.
#![tactic(auto)]

mod columns;
mod exporting;
mod fault;
mod field;
mod line;
mod printer;

pub use exporting::export;
pub use fault::ExportFault;

#[cfg(test)]
mod tests;

//! Tests of how a table is collected, from answers that were worked by hand. They are a crate of their own, so that
//! `pb_collect` is proved once, without them.
#![tactic(auto)]

#[cfg(test)]
mod tests;

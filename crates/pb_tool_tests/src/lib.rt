//! Tests of the commands of `pakbus`, over sites, sources and sinks in memory. They are a crate of their own, so that the
//! commands are proved once, without them.
#![tactic(auto)]

#[cfg(test)]
mod tests;

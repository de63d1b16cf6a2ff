//! Samples for tests: statements, definitions and sites of short texts, in which each `;` is a line feed. Crates of tests share them,
//! so that they are proved once for all of these; no program stands on them, and nothing is claimed of them.
#![tactic(auto)]

mod sites;

pub use sites::{definitions_of, name_of, only_packet, site_of, site_over, statements_of};

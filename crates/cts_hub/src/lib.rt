//! One server as the client of another: what ties a router of one site to an interface of another, and what the router put as the
//! pieces of that interface's connection.
#![tactic(auto)]

mod chains;
mod hub;
mod same;
mod targets;

pub use hub::{Hub, HubFault};

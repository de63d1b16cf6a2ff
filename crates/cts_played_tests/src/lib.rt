//! Tests of the playback of logs, of columns of telemetry, and of hubs, over the files of the demo. They stand above these crates, so that
//! none of them is proved a second time for them.
#![tactic(auto)]

#[cfg(test)]
mod columns;
#[cfg(test)]
mod files;
#[cfg(test)]
mod hubs;
#[cfg(test)]
mod laws;
#[cfg(test)]
mod playback;
#[cfg(test)]
mod worlds;

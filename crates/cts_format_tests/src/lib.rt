//! Tests of formats: requests over HTTP and the JSON-RPC bodies in them, log files and their parts, and rehearsals with their hashes. They stand above
//! these crates, so that none of them is proved a second time for them.
#![tactic(auto)]

#[cfg(test)]
mod cycles;
#[cfg(test)]
mod http;
#[cfg(test)]
mod log_parts;
#[cfg(test)]
mod logs;
#[cfg(test)]
mod parts;
#[cfg(test)]
mod rehearsals;
#[cfg(test)]
mod rpc;

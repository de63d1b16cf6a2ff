//! Tests of whole commands over files, a shelf, a sink and a vault in memory, and of a server over devices in memory. They stand above
//! these crates, so that neither of them is proved a second time for them.
#![tactic(auto)]

#[cfg(test)]
mod calls;
#[cfg(test)]
mod chains;
#[cfg(test)]
mod commands;
#[cfg(test)]
mod counting;
#[cfg(test)]
mod crews;
#[cfg(test)]
mod demo;
#[cfg(test)]
mod devices;
#[cfg(test)]
mod dumps;
#[cfg(test)]
mod each_call;
#[cfg(test)]
mod extracts;
#[cfg(test)]
mod failing;
#[cfg(test)]
mod faults;
#[cfg(test)]
mod gates;
#[cfg(test)]
mod hubs;
#[cfg(test)]
mod instrument;
#[cfg(test)]
mod laid_out;
#[cfg(test)]
mod layouts;
#[cfg(test)]
mod limits;
#[cfg(test)]
mod logs;
#[cfg(test)]
mod parts;
#[cfg(test)]
mod plays;
#[cfg(test)]
mod refusals;
#[cfg(test)]
mod rehearsals;
#[cfg(test)]
mod routers;
#[cfg(test)]
mod scripts;
#[cfg(test)]
mod serving;
#[cfg(test)]
mod shelves;
#[cfg(test)]
mod site;
#[cfg(test)]
mod statuses;
#[cfg(test)]
mod table;
#[cfg(test)]
mod told;
#[cfg(test)]
mod two_servers;

//! Tests of a desk over doors in memory, and of the scribe over vaults in memory. They stand above these crates, so that neither of them is proved a second
//! time for them.
#![tactic(auto)]

#[cfg(test)]
mod adding;
#[cfg(test)]
mod answers;
#[cfg(test)]
mod beside;
#[cfg(test)]
mod clients;
#[cfg(test)]
mod desks;
#[cfg(test)]
mod logs;
#[cfg(test)]
mod narrow;
#[cfg(test)]
mod parts;
#[cfg(test)]
mod scribes;
#[cfg(test)]
mod scribing;
#[cfg(test)]
mod sources;
#[cfg(test)]
mod ticking;
#[cfg(test)]
mod words;

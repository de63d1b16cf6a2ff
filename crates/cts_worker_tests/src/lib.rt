//! Tests of the turn over a list of entries and over a hall, and of the workers of lines over dialers in memory, alone and two at once.
//! They stand above these crates, so that none of them is proved a second time for them.
#![tactic(auto)]

#[cfg(test)]
mod chains;
#[cfg(test)]
mod halls;
#[cfg(test)]
mod holds;
#[cfg(test)]
mod jobs;
#[cfg(test)]
mod lines;
#[cfg(test)]
mod order;
#[cfg(test)]
mod pairs;
#[cfg(test)]
mod passes;
#[cfg(test)]
mod read;
#[cfg(test)]
mod said;
#[cfg(test)]
mod ticking;
#[cfg(test)]
mod turns;
#[cfg(test)]
mod waiting;
#[cfg(test)]
mod written;

//! Tests of what becomes of packets and commands over sites that were read: values, bytes and halls; heads, chains of boxed protocols
//! and shelves; scripts, worlds, and the lines of the history and of effects. They stand above these crates, so that none of them is
//! proved a second time for them.
#![tactic(auto)]

#[cfg(test)]
mod chains;
#[cfg(test)]
mod colors;
#[cfg(test)]
mod command_texts;
#[cfg(test)]
mod commands;
#[cfg(test)]
mod effects;
#[cfg(test)]
mod halls;
#[cfg(test)]
mod heads;
#[cfg(test)]
mod held;
#[cfg(test)]
mod history;
#[cfg(test)]
mod ident;
#[cfg(test)]
mod injections;
#[cfg(test)]
mod labels;
#[cfg(test)]
mod limits;
#[cfg(test)]
mod lines;
#[cfg(test)]
mod routers;
#[cfg(test)]
mod scripts;
#[cfg(test)]
mod shelves;
#[cfg(test)]
mod sites;
#[cfg(test)]
mod values;
#[cfg(test)]
mod watched;
#[cfg(test)]
mod world;
#[cfg(test)]
mod writing;

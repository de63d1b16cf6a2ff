//! Tests of the methods over a hall whose site was read. They stand above these crates, so that none of them is proved a second time
//! for them.
#![tactic(auto)]

#[cfg(test)]
mod hall;
#[cfg(test)]
mod looks;
#[cfg(test)]
mod replies;
#[cfg(test)]
mod requests;

//! Tests of the parts in memory and of both crews, each called as any program calls it: through the bounds, at these types. They
//! stand above `cts_outside`, so that it is not proved a second time for them.
#![tactic(auto)]

#[cfg(test)]
mod crews;
#[cfg(test)]
mod dialers;
#[cfg(test)]
mod driven;
#[cfg(test)]
mod files;
#[cfg(test)]
mod meeting;
#[cfg(test)]
mod shared;
#[cfg(test)]
mod sinks;
#[cfg(test)]
mod times;
#[cfg(test)]
mod vaults;

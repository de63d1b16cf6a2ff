//! What the running server stands on outside of it, beside files: devices and clients over TCP, and the system's clock, each after
//! its trait of `cts_outside`. They tell nothing of content, since no proof sees what a network carries; what they count is exact. No
//! call of a dialer waits for a second, but for the system's search for a host's name and for a put whose peer takes some bytes again
//! and again, which may wait for half a minute.
#![tactic(auto)]

mod bells;
mod clock;
mod devices;
mod dialer;
mod listener;
mod patience;
mod stream;
mod wire;

pub use crate::bells::Bells;
pub use crate::clock::SystemClock;
pub use crate::devices::Listeners;
pub use crate::dialer::TcpDialer;
pub use crate::listener::SharedListener;
pub use crate::patience::Patience;

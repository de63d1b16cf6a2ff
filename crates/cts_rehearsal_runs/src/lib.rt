//! Laws of whole rehearsals over the core: in the demo's site each event is enabled when it comes and the history has room for it, so
//! that each rehearsal ends with its events done.
#![tactic(auto)]

mod laws;

pub use laws::{pieces_are_cut, rehearsals_finish};

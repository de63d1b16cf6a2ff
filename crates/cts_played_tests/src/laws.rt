// Laws that are stated of any type of elements, called at one; and what is looked at of definitions.
use crate::files::DEFINITIONS;
use cts_ident_laws::{names_are_kept, names_are_known};
use cts_samples::definitions_of;
use cts_trace_laws::{
    packets_are_read_back, slots_put_what_is_routed, streams_are_heard, streams_split,
};
use std::test::Fail;

#[test]
fn laws_are_of_entries_too(rt: HostRuntime) -> Result<(), Fail> {
    streams_split::<cts_entry::Entry>();
    streams_are_heard::<cts_entry::Entry>();
    packets_are_read_back();
    slots_put_what_is_routed();
    names_are_known();
    let definitions = definitions_of(rt.alloc(), DEFINITIONS)?;
    names_are_kept(&definitions);
    Ok(())
}

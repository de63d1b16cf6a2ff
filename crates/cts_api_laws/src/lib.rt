//! Laws of the methods: what the params of those are that change something, and that those that only ask leave nothing after.
//!
//! They are said of the definitions that the contracts of `cts_api` cite, so they are laws of what desks reply.
#![tactic(auto)]

ghost use Rattle.cts_api_laws.specs.ListedRows.{RowsAreListed};
ghost use Rattle.cts_api_laws.specs.LookUps.{LookUpsAppendNothing, LookUpsNeedNoRoom};
ghost use Rattle.cts_api_laws.specs.ParamRows.{ParamsAreTheirRow};

/// Of a method that changes something, what its params ask is what the row of the method says of params of that number, and params
/// that are of the row ask it. So params that are of no row are refused.
pub fn params_are_their_row()
    ensures { ParamsAreTheirRow }
{}

/// A method that only asks appends nothing, and in a legal history it is never answered that the history is full.
pub fn look_ups_leave_nothing()
    ensures nothing { LookUpsAppendNothing }
    ensures room { LookUpsNeedNoRoom }
{}

/// The rows of `get_tlm_packet` are one an item, those of `get_out_of_limits` one an item that is red or yellow, and those of
/// `get_limits_events` one an event, each in the order of these.
pub fn rows_are_listed()
    ensures { RowsAreListed }
{}

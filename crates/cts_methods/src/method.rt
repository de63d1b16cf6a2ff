//! The table of methods.

ghost use Rattle.std.specs.Prelude.{◌≡◌, map};
ghost use Rattle.cts_methods.specs.Methods.{method_in, method_named};

use cts_conv::ValueKind;

/// What a method does; of methods that differ in one word, that word.
#[derive(Clone, Copy)]
pub enum Method {
    /// `tlm`, `tlm_raw`, `tlm_formatted` and `tlm_with_units`.
    Value(ValueKind),
    /// `get_tlm_packet`.
    Packet,
    /// `get_tlm_cnt`.
    Received,
    /// `get_cmd_cnt`.
    Sent,
    /// `cmd` and those that leave checks out.
    Command { range: bool, hazardous: bool },
    /// `get_limits`.
    Limits,
    /// `set_limits`.
    SetLimits,
    /// `enable_limits` and `disable_limits`.
    Enable(bool),
    /// `get_limits_set`.
    Set,
    /// `set_limits_set`.
    ChooseSet,
    /// `get_out_of_limits`.
    OutOfLimits,
    /// `get_limits_events`.
    Events,
    /// `get_interface_names`.
    Interfaces,
    /// `interface_state`.
    Interface,
    /// `inject_tlm`.
    Inject,
    /// `stop_server`.
    Stop,
}

/// A method by its name.
struct Row {
    name: &'static [u8],
    method: Method,
}

/// All methods.
const METHODS: [Row; 23] = [
    Row {
        name: b"tlm",
        method: Method::Value(ValueKind::Converted),
    },
    Row {
        name: b"tlm_raw",
        method: Method::Value(ValueKind::Raw),
    },
    Row {
        name: b"tlm_formatted",
        method: Method::Value(ValueKind::Formatted),
    },
    Row {
        name: b"tlm_with_units",
        method: Method::Value(ValueKind::WithUnits),
    },
    Row {
        name: b"get_tlm_packet",
        method: Method::Packet,
    },
    Row {
        name: b"get_tlm_cnt",
        method: Method::Received,
    },
    Row {
        name: b"get_cmd_cnt",
        method: Method::Sent,
    },
    Row {
        name: b"cmd",
        method: Method::Command {
            range: true,
            hazardous: true,
        },
    },
    Row {
        name: b"cmd_no_range_check",
        method: Method::Command {
            range: false,
            hazardous: true,
        },
    },
    Row {
        name: b"cmd_no_hazardous_check",
        method: Method::Command {
            range: true,
            hazardous: false,
        },
    },
    Row {
        name: b"cmd_no_checks",
        method: Method::Command {
            range: false,
            hazardous: false,
        },
    },
    Row {
        name: b"get_limits",
        method: Method::Limits,
    },
    Row {
        name: b"set_limits",
        method: Method::SetLimits,
    },
    Row {
        name: b"enable_limits",
        method: Method::Enable(true),
    },
    Row {
        name: b"disable_limits",
        method: Method::Enable(false),
    },
    Row {
        name: b"get_limits_set",
        method: Method::Set,
    },
    Row {
        name: b"set_limits_set",
        method: Method::ChooseSet,
    },
    Row {
        name: b"get_out_of_limits",
        method: Method::OutOfLimits,
    },
    Row {
        name: b"get_limits_events",
        method: Method::Events,
    },
    Row {
        name: b"get_interface_names",
        method: Method::Interfaces,
    },
    Row {
        name: b"interface_state",
        method: Method::Interface,
    },
    Row {
        name: b"inject_tlm",
        method: Method::Inject,
    },
    Row {
        name: b"stop_server",
        method: Method::Stop,
    },
];

// The method of this list that has the name.
fn method_in(list: &[Row], name: &[u8]) -> Option<Method>
    ensures { result ≡ method_in (map (λ r. (r.name.now, r.method)) list.now) name.now }
{
    for row in list {
        if name == row.name {
            return Some(row.method);
        }
    }
    None
}

/// The method of this name, which stands exactly so. The names are those of the COSMOS 4 JSON API, but for `stop_server` and
/// `get_limits_events`, which are this project's own.
pub fn method_named(name: &[u8]) -> Option<Method>
    ensures { result ≡ method_named name.now }
{
    method_in(&METHODS, name)
}

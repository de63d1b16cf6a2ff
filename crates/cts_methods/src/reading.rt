//! What a call asks, lent from its params.

ghost use Rattle.std.specs.Prelude.{◌≡◌, map, option_map};
ghost use Rattle.serde_json.specs.View.{view};
ghost use Rattle.cts_methods.specs.Kinds.{injected, limits, nothing, order_in, packet, parts_in, set_limits};
ghost use Rattle.cts_methods.specs.Methods.{params_of};
ghost use Rattle.cts_methods.specs.Seen.{asking_data, order_data};

use crate::method::Method;
use crate::params::{
    ItemWords, LimitsWords, PacketWords, item_in, may_be_kind, may_be_natural, may_be_object,
    may_be_text, names_first, names_in, new_limits, packet_first, packet_in, single_object,
    single_text, text_in,
};
use cts_cmd::Checks;
use cts_conv::ValueKind;
use serde_json::{Map, Value};

/// A command as it is given.
#[derive(Clone, Copy)]
pub enum Order<'a> {
    /// In one text.
    Text(&'a [u8]),
    /// By its names, and perhaps an object of whole numbers and texts.
    Parts(PacketWords<'a>, Option<&'a Map<String, Value>>),
}

/// What a call asks, once its params have the count and the kinds that its method wants.
#[derive(Clone, Copy)]
pub enum Asking<'a> {
    /// The value of an item.
    Value(ValueKind, ItemWords<'a>),
    /// All items of a packet, by this kind of value.
    Packet(PacketWords<'a>, ValueKind),
    /// How often a packet came.
    Received(PacketWords<'a>),
    /// How often a command was sent.
    Sent(PacketWords<'a>),
    /// To send a command, with the checks that are made.
    Command(Checks, Order<'a>),
    /// The limits of an item, in the current set or in this one.
    Limits(ItemWords<'a>, Option<&'a [u8]>),
    /// To give an item new limits.
    SetLimits(ItemWords<'a>, LimitsWords<'a>),
    /// To take samples of an item, or none.
    Enable(bool, ItemWords<'a>),
    /// The current limits set.
    Set,
    /// To make a limits set the current one.
    ChooseSet(&'a [u8]),
    /// All items whose state is red or yellow.
    OutOfLimits,
    /// The changes of limits states at the entries from this one on.
    Events(u64),
    /// The names of all interfaces.
    Interfaces,
    /// Whether an interface is connected.
    Interface(&'a [u8]),
    /// To put raw values in place of a device.
    Inject(PacketWords<'a>, &'a Map<String, Value>),
    /// To stop the server.
    Stop,
}

fn parts_in(params: &[Value]) -> Option<Order<'_>>
    ensures { option_map order_data result ≡ parts_in (map view params.now) }
{
    let (names, rest) = packet_first(params)?;
    let members = may_be_object(rest)?;
    Some(Order::Parts(names, members))
}

fn order_in(params: &[Value]) -> Option<Order<'_>>
    ensures { option_map order_data result ≡ order_in (map view params.now) }
{
    let (first, rest) = params.split_first()?;
    match rest {
        [] => Some(Order::Text(text_in(first)?)),
        _ => parts_in(params),
    }
}

fn packet(params: &[Value]) -> Option<Asking<'_>>
    ensures { option_map asking_data result ≡ packet (map view params.now) }
{
    let (names, rest) = packet_first(params)?;
    let kind = may_be_kind(rest)?.unwrap_or(ValueKind::Converted);
    Some(Asking::Packet(names, kind))
}

fn limits(params: &[Value]) -> Option<Asking<'_>>
    ensures { option_map asking_data result ≡ limits (map view params.now) }
{
    let (names, rest) = names_first(params)?;
    Some(Asking::Limits(names, may_be_text(rest)?))
}

fn set_limits(params: &[Value]) -> Option<Asking<'_>>
    ensures { option_map asking_data result ≡ set_limits (map view params.now) }
{
    let (names, rest) = names_first(params)?;
    Some(Asking::SetLimits(names, new_limits(rest)?))
}

fn injected(params: &[Value]) -> Option<Asking<'_>>
    ensures { option_map asking_data result ≡ injected (map view params.now) }
{
    let (names, rest) = packet_first(params)?;
    Some(Asking::Inject(names, single_object(rest)?))
}

fn nothing<'a>(asking: Asking<'a>, params: &'a [Value]) -> Option<Asking<'a>>
    ensures { option_map asking_data result ≡ nothing (asking_data asking.entry) (map view params.now) }
{
    match params {
        [] => Some(asking),
        _ => None,
    }
}

/// What the params of a method ask; none where they are not of its count and kinds.
pub fn read_asking(method: Method, params: &[Value]) -> Option<Asking<'_>>
    ensures { option_map asking_data result ≡ params_of method (map view params.now) }
{
    match method {
        Method::Value(kind) => Some(Asking::Value(kind, item_in(params)?)),
        Method::Packet => packet(params),
        Method::Received => packet_in(params).map(Asking::Received),
        Method::Sent => packet_in(params).map(Asking::Sent),
        Method::Command { range, hazardous } => Some(Asking::Command(
            Checks { range, hazardous },
            order_in(params)?,
        )),
        Method::Limits => limits(params),
        Method::SetLimits => set_limits(params),
        Method::Enable(on) => Some(Asking::Enable(on, names_in(params)?)),
        Method::Set => nothing(Asking::Set, params),
        Method::ChooseSet => single_text(params).map(Asking::ChooseSet),
        Method::OutOfLimits => nothing(Asking::OutOfLimits, params),
        Method::Events => Some(Asking::Events(may_be_natural(params)?.unwrap_or(0))),
        Method::Interfaces => nothing(Asking::Interfaces, params),
        Method::Interface => single_text(params).map(Asking::Interface),
        Method::Inject => injected(params),
        Method::Stop => nothing(Asking::Stop, params),
    }
}

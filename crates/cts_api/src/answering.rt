//! What is asked, and who answers it.

ghost use Rattle.std.specs.Prelude.{◌≡◌, ◌<◌};
ghost use Rattle.cts_api.specs.Answers.{appended, told};
ghost use Rattle.cts_api.specs.Points.{Point};
ghost use Rattle.cts_methods.specs.Seen.{asking_data, item_name, limits_asked, order_data};
ghost use Rattle.cts_api.specs.Settling.{HasAnswered, LimitsPersist};
ghost use Rattle.cts_api.specs.Telling.{Finds, IsDoneBy, IsFree, point, Tells};
ghost use Rattle.cts_methods.specs.Asking.{sends, sets_limits};
ghost use Rattle.cts_api.specs.Saying.{Said};
ghost use Rattle.cts_entry.specs.declared.what.What.{What as Saying};
ghost use Rattle.serde_json.specs.Data.{Data};
ghost use Rattle.serde_json.specs.View.{view};

use crate::changing::{choose_set, enable_limits, set_limits};
use crate::commands::request;
use crate::injecting::injection;
use crate::interfaces::{interface_names, interface_state};
use crate::limits::{item_limits, limits_events, limits_set, out_of_limits};
use crate::refusal::{Missing, Refusal};
use crate::sending::{Done, nothing, send, stop};
use crate::values::{command_count, item_value, packet_count, packet_values};
use cts_cmd::Checks;
use cts_entry::What;
use cts_methods::{Asking, ItemWords, LimitsWords, Order};
use cts_table::{Hall, Steps};
use serde_json::Value;
use std::alloc::Global;
use std::sync::ledger::{Blank, Ledger};

// A result, with nothing to append.
fn told(said: Result<Value, Refusal>) -> Result<Done, Refusal>
    ensures { (h : Point) (found : Said Data) → Tells view said found → IsDoneBy h (told found) result }
{
    match said {
        Ok(result) => Ok(Done { result, what: None }),
        Err(refusal) => Err(refusal),
    }
}

// A result for which no memory was taken, with nothing to append.
fn counted(found: Result<Value, Missing>) -> Result<Done, Refusal>
    ensures told { (h : Point) (said : Said Data) → Finds view found said → IsDoneBy h (told said) result }
    ensures free { IsFree result }
{
    match found {
        Ok(result) => Ok(Done { result, what: None }),
        Err(missing) => Err(Refusal::NoSuch(missing.message)),
    }
}

// An entry to append for which no memory was taken, with the result null.
fn switched(found: Result<What, Missing>) -> Result<Done, Refusal>
    ensures told { (h : Point) (what : Said Saying) → Finds (λ w. w) found what → IsDoneBy h (appended what) result }
    ensures free { IsFree result }
{
    match found {
        Ok(what) => Ok(Done {
            result: nothing(),
            what: Some(what),
        }),
        Err(unknown) => Err(Refusal::NoSuch(unknown.message)),
    }
}

// An entry to append, with the result null.
fn appended(said: Result<What, Refusal>) -> Result<Done, Refusal>
    ensures { (h : Point) (what : Said Saying) → Tells (λ w. w) said what → IsDoneBy h (appended what) result }
{
    match said {
        Ok(what) => Ok(Done {
            result: nothing(),
            what: Some(what),
        }),
        Err(refusal) => Err(refusal),
    }
}

fn limits_changed(
    alloc: Global,
    hall: &Hall,
    names: ItemWords<'_>,
    limits: LimitsWords<'_>,
) -> Result<Done, Refusal>
    ensures answered { HasAnswered (point hall.now) (sets_limits (item_name names.entry) (limits_asked limits.entry)) result }
    ensures persistent { LimitsPersist (sets_limits (item_name names.entry) (limits_asked limits.entry)) result }
{
    let what = set_limits(alloc, hall, names, limits)?;
    Ok(Done {
        what: Some(what),
        result: nothing(),
    })
}

fn commanded(alloc: Global, hall: &Hall, checks: Checks, order: Order<'_>) -> Result<Done, Refusal>
    ensures { HasAnswered (point hall.now) (sends checks (order_data order.entry)) result }
{
    let request = request(alloc, order)?;
    send(alloc, hall, checks, &request)
}

/// What is answered to what is asked, and what is to be appended. Looks at the history for a value are counted over the blank ledger.
pub(crate) fn asked<L: Ledger>(
    alloc: Global,
    hall: &Hall,
    asking: Asking<'_>,
    blank: Blank,
) -> Result<Done, Refusal>
    requires name { blank.name ≡ L.name }
    requires parts { blank.parts ≡ L.parts }
    requires some { 0 < L.parts }
    ensures answered { HasAnswered (point hall.now) (asking_data asking.entry) result }
    ensures persistent { LimitsPersist (asking_data asking.entry) result }
{
    let mut steps: Steps<L> = Steps::begin(blank);
    match asking {
        Asking::Value(kind, names) => told(item_value(alloc, hall, kind, names, &mut steps)),
        Asking::Packet(names, kind) => told(packet_values(alloc, hall, names, kind)),
        Asking::Received(names) => counted(packet_count(hall, names)),
        Asking::Sent(names) => counted(command_count(hall, names)),
        Asking::Command(checks, order) => commanded(alloc, hall, checks, order),
        Asking::Limits(names, set) => told(item_limits(alloc, hall, names, set)),
        Asking::SetLimits(names, limits) => limits_changed(alloc, hall, names, limits),
        Asking::Enable(on, names) => switched(enable_limits(hall, on, names)),
        Asking::Set => told(limits_set(alloc, hall)),
        Asking::ChooseSet(name) => appended(choose_set(alloc, hall, name)),
        Asking::OutOfLimits => told(out_of_limits(alloc, hall)),
        Asking::Events(from) => told(limits_events(alloc, hall, from)),
        Asking::Interfaces => told(interface_names(alloc, hall)),
        Asking::Interface(name) => told(interface_state(alloc, hall, name)),
        Asking::Inject(names, members) => injection(alloc, hall, names, members),
        Asking::Stop => Ok(stop(hall)),
    }
}

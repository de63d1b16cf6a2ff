// Chains that fit.
ghost use Rattle.std.specs.Prelude.{◌≡◌, option_map};
ghost use Rattle.std.specs.List.{list_any};
ghost use Rattle.cts_def.specs.Protocols.{spec_data};
ghost use Rattle.cts_hub.specs.Ties.{alone, are_same_heads, are_tied, chains_fit, is_used, specs_used};

use crate::same::same_option;
use cts_def::{ProtoSpec, ProtoUse};

/// Whether what the one chain writes is one PREIDENTIFIED, and what reads of the other is one with the same parameters.
pub(crate) fn chains_fit(writing: &[ProtoUse], reading: &[ProtoUse]) -> bool
    ensures { result ≡ chains_fit writing.now reading.now }
{
    match (alone(writing, false), alone(reading, true)) {
        (Some(written), Some(read)) => are_same_heads(written, read),
        _ => false,
    }
}

// The one protocol that is used so, if there is one alone.
#[tactic(auto, using(crate::proofs::Alone::alone_none, crate::proofs::Alone::alone_some))]
fn alone(uses: &[ProtoUse], reading: bool) -> Option<&ProtoSpec>
    ensures { option_map (λ s. spec_data s.now) result ≡ alone (specs_used reading uses.now) }
{
    let (first, later) = uses.split_first()?;
    if !is_used(first, reading) {
        return alone(later, reading);
    }
    if any_used(later, reading) {
        return None;
    }
    Some(&first.spec)
}

fn any_used(uses: &[ProtoUse], reading: bool) -> bool
    ensures { result ≡ list_any (is_used reading) uses.now }
{
    uses.iter().any(|u| is_used(u, reading))
}

fn is_used(it: &ProtoUse, reading: bool) -> bool
    ensures { result ≡ is_used reading it.now }
{
    if reading { it.reads } else { it.writes }
}

#[tactic(auto, using(crate::proofs::Equal::max_is))]
fn are_same_heads(one: &ProtoSpec, other: &ProtoSpec) -> bool
    ensures { result ≡ are_same_heads (spec_data one.now) (spec_data other.now) }
{
    match (one, other) {
        (
            ProtoSpec::Preidentified { sync, max, layout },
            ProtoSpec::Preidentified {
                sync: sync_read,
                max: max_read,
                layout: layout_read,
            },
        ) => sync == sync_read && (same_option(max, max_read) && *layout == *layout_read),
        _ => false,
    }
}

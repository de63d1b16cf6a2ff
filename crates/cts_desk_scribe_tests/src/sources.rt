// A desk over a source of replies that is not the hall.
ghost use Rattle.std.specs.Prelude.{◌≡◌, []};

use crate::ticking::Ticking;
use cts_api::Answer;
use cts_base::Memory;
use cts_def::Time;
use cts_desk::{AtHand, DeskWhy, Source, Talk, connect};
use cts_outside::{Dialer, OpenGate};
use cts_table::Hall;
use cts_turn::{Pass, Turn};
use std::alloc::Global;
use std::sync::Wait;

/// A source whose replies have no text, at one front after another.
#[derive(Drop)]
struct Silence {
    front: u64,
}

impl Source for Silence {
    ghost use Rattle.std.specs.Prelude.{◌≡◌};
    ghost use Rattle.cts_desk.specs.Exchanges.{fronts_of};

    ghost going = { λ s n b by fronts v xs. fronts ≡ fronts_of xs };

    ghost fits = { λ s b. Unit {0} };

    fn ask<W: Wait>(
        &mut self,
        _rt: &W,
        _alloc: Global,
        _turn: &Turn<Hall>,
        pass: Pass<Hall>,
        _by: u32,
        _time: Time,
        _body: &[u8],
        _fronts: &[u64],
    ) -> (Pass<Hall>, u64, Result<Answer, Memory>) {
        let front = self.front;
        self.front = front.saturating_add(1);
        let answer = Answer {
            text: None,
            appended: 0,
        };
        (pass, front, Ok(answer))
    }

    ghost counts = { λ s n b by fronts v xs g. g };

    ghost stays = { λ s n b by fronts v w xs hold g. g };
}

/// Why the first desk ends that runs over this door and answers nothing, from front 7 on, and its fronts.
pub fn silence_over<W: Wait, D: Dialer>(
    rt: &W,
    alloc: Global,
    hall: Hall,
    door: &mut D,
) -> Result<(DeskWhy, Vec<u64>), Memory>
    requires empty { hall.entries ≡ [] }
{
    hall.is_kept();
    let (turn, pass) = Turn::new(alloc, hall)?;
    let clock = Ticking::new();
    let gate = OpenGate::new();
    door.hang_up();
    let talk = Talk {
        pass,
        fronts: Vec::new(alloc),
        source: Silence { front: 7 },
    };
    let hand = AtHand {
        rt,
        alloc,
        by: 24,
        turn: &turn,
        clock: &clock,
        gate: &gate,
    };
    let (talk, why) = connect(&hand, talk, door);
    drop(hand);
    let Talk { pass, fronts, .. } = talk;
    let left = turn.close(pass);
    drop(left);
    Ok((why, fronts))
}

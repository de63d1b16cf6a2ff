// A gate that holds one worker until another has done something.
ghost use Rattle.std.specs.Prelude.{◌≤◌};

use cts_outside::{Gate, GateStage};
use cts_rows::number;
use std::alloc::Global;
use std::sync::Wait;
use std::sync::atomic::{AtomicU64, Ordering};
use std::test::Fail;
use std::thread::sleep;
use std::time::{Clock, Duration};

/// How often a worker that is held looks for the other before it goes on, a millisecond apart.
const LOOKS: u64 = 60_000;

/// A maker at a stage for the so-manieth time, counted from 1.
#[derive(Clone, Copy)]
struct Point {
    by: u32,
    stage: GateStage,
    time: u64,
}

/// A maker waits at a point until another one has come to a point.
#[derive(Clone, Copy)]
struct Hold {
    at: Point,
    until: Point,
}

/// A gate with these holds, which counts who came how often to which stage.
pub struct Order<'a, T> {
    rt: &'a T,
    holds: Vec<Hold>,
    come: Vec<AtomicU64>,
}

impl<'a, T> Drop for Order<'a, T> {
    fn drop(self) {
        let Self {
            rt: _,
            holds: _,
            come: _,
        } = self;
    }
}

/// How many makers there may be.
const MAKERS: usize = 32;

/// How many stages there are.
const STAGES: usize = 4;

impl<'a, T> Order<'a, T> {
    /// The gate of a text: words `0T1<16P2`, each a maker, the first letter of a stage and how often, and the same of the one that is waited for.
    pub fn of(rt: &'a T, alloc: Global, text: &str) -> Result<Order<'a, T>, Fail> {
        let mut holds = Vec::new(alloc);
        for word in text.split_ascii_whitespace() {
            holds.push(hold_of(word)?)?;
        }
        let mut come = Vec::new(alloc);
        for _ in 0..MAKERS * STAGES {
            come.push(AtomicU64::new(0))?;
        }
        Ok(Order { rt, holds, come })
    }

    fn counter(&self, by: u32, stage: GateStage) -> Option<&AtomicU64> {
        if by as usize >= MAKERS {
            return None;
        }
        self.come.get(by as usize * STAGES + place_of(stage))
    }

    /// Counts that a maker has come to a stage, and says how often it has.
    fn comes(&self, by: u32, stage: GateStage) -> u64 {
        match self.counter(by, stage) {
            Some(count) => count.fetch_add(1, Ordering::SeqCst).saturating_add(1),
            None => 0,
        }
    }

    fn has_come(&self, point: &Point) -> bool {
        match self.counter(point.by, point.stage) {
            Some(count) => count.load(Ordering::SeqCst) >= point.time,
            None => true,
        }
    }
}

impl<'a, T: Wait + Clock> Order<'a, T> {
    /// Waits until a maker has come to a point.
    fn wait_for(&self, point: &Point) {
        for _ in 0..LOOKS {
            if self.has_come(point) {
                return;
            }
            sleep(self.rt, Duration::from_millis(1));
        }
    }
}

impl<'a, T: Wait + Clock> Gate for Order<'a, T> {
    fn pass<R: Wait>(&self, _rt: &R, by: u32, stage: GateStage) {
        let time = self.comes(by, stage);
        for hold in &self.holds {
            if hold.at.by == by && hold.at.stage == stage && hold.at.time == time {
                self.wait_for(&hold.until);
            }
        }
    }
}

fn place_of(stage: GateStage) -> usize
    ensures { result ≤ 3 }
{
    match stage {
        GateStage::Started => 0,
        GateStage::Took => 1,
        GateStage::Posted => 2,
        GateStage::Answered => 3,
    }
}

fn hold_of(word: &str) -> Result<Hold, Fail> {
    match word.split_once('<') {
        Some((at, until)) => Ok(Hold {
            at: point_of(at)?,
            until: point_of(until)?,
        }),
        None => Err(Fail::new("no hold")),
    }
}

fn point_of(word: &str) -> Result<Point, Fail> {
    for (letter, stage) in [
        ('S', GateStage::Started),
        ('T', GateStage::Took),
        ('P', GateStage::Posted),
    ] {
        if let Some((by, time)) = word.split_once(letter) {
            return Ok(Point {
                by: number(by, 0)?,
                stage,
                time: number(time, 0)?,
            });
        }
    }
    Err(Fail::new("no stage"))
}

ghost use Rattle.std.specs.Prelude.{◌≤◌, ◌<◌, IsTrue};
ghost use Rattle.dt_record.specs.Lawful.{is_ram_line};
ghost use Rattle.dt_stores.specs.Places.{is_store_place};
ghost use Rattle.dt_sources.specs.Finding.{is_load_place};

use dt_record::{Image, Key, Write};
use dt_sources::LoadAsk;
use dt_stores::{DrainAnswer, OwnStore, Stores};
use dt_versions::Moments;
use std::alloc::{AllocError, Global};

/// What hart 1 does, whose loads are judged. A place is one of four: two bytes of the first line,
/// both of them, or a byte of the next line.
#[derive(Clone, Copy, Debug)]
pub enum Event {
    Store {
        place: u64,
        seq: u32,
        value: u64,
    },
    Drain {
        key: Key,
        next: bool,
        count: u16,
        mask: u64,
    },
    Load {
        place: u64,
        key: Key,
        early: bool,
        raw: u64,
    },
}

/// A short run: the events of hart 1, and the writes of all harts.
#[derive(Debug, Drop)]
pub struct Run {
    pub events: Vec<Event>,
    pub writes: Vec<Write>,
    pub moments: Moments,
}

/// Numbers that look random.
#[derive(Clone, Copy, Debug)]
pub struct Dice {
    pub state: u64,
}

impl Dice {
    /// A number below the bound.
    pub fn below(&mut self, bound: u64) -> u64
        requires { 0 < bound }
        ensures { result < bound }
    {
        self.state = self
            .state
            .wrapping_mul(6_364_136_223_846_793_005)
            .wrapping_add(1_442_695_040_888_963_407);
        (self.state >> 33) % bound
    }
}

pub fn line_of(next: bool) -> u64
    ensures { IsTrue (is_ram_line result) }
{
    if next { 0x8000_0040 } else { 0x8000_0000 }
}

pub fn store_at(place: u64, seq: u32, value: u64) -> OwnStore
    ensures { IsTrue (is_store_place result) }
{
    match place {
        0 => OwnStore {
            seq,
            addr: 0x8000_0000,
            width: 1,
            value,
        },
        1 => OwnStore {
            seq,
            addr: 0x8000_0001,
            width: 1,
            value,
        },
        2 => OwnStore {
            seq,
            addr: 0x8000_0000,
            width: 2,
            value,
        },
        _ => OwnStore {
            seq,
            addr: 0x8000_0040,
            width: 1,
            value,
        },
    }
}

/// A load in the cycle of its record, or in the one before.
pub fn load_at(place: u64, key: Key, early: bool, raw: u64) -> LoadAsk
    ensures place { IsTrue (is_load_place result) }
    ensures early { result.at ≤ result.key.stamp }
{
    let at = key.stamp.saturating_sub(u64::from(early));
    match place {
        0 => LoadAsk {
            key,
            at,
            addr: 0x8000_0000,
            width: 1,
            raw: raw % 256,
        },
        1 => LoadAsk {
            key,
            at,
            addr: 0x8000_0001,
            width: 1,
            raw: raw % 256,
        },
        2 => LoadAsk {
            key,
            at,
            addr: 0x8000_0000,
            width: 2,
            raw,
        },
        _ => LoadAsk {
            key,
            at,
            addr: 0x8000_0040,
            width: 1,
            raw: raw % 256,
        },
    }
}

/// Two bytes below 3.
fn two_bytes(dice: &mut Dice) -> u64 {
    let high = dice.below(3);
    high * 256 + dice.below(3)
}

/// A run of nine steps, two in a cycle. What does not fit is left out.
pub fn random_run(alloc: Global, dice: &mut Dice) -> Result<Run, AllocError> {
    let image = Image::of(Vec::new(alloc));
    let mut stores = Stores::new(alloc);
    let mut run = Run {
        events: Vec::new(alloc),
        writes: Vec::new(alloc),
        moments: Moments::empty(alloc, image),
    };
    for step in 0..9 {
        add_step(&mut run, &mut stores, dice, step)?;
    }
    Ok(run)
}

fn add_step(
    run: &mut Run,
    stores: &mut Stores,
    dice: &mut Dice,
    step: u32,
) -> Result<(), AllocError> {
    let key = Key {
        stamp: 1 + u64::from(step / 2),
        hart: 1,
        seq: step,
    };
    match dice.below(6) {
        0 | 1 => add_foreign(run, dice, key),
        2 => add_store(run, stores, dice, step),
        3 => add_drain(run, stores, dice, key),
        _ => add_load(run, dice, key),
    }
}

fn add_write(run: &mut Run, w: Write) -> Result<bool, AllocError> {
    if !run.moments.can_add(&w) {
        return Ok(false);
    }
    run.moments.add(w)?;
    run.writes.push(w)?;
    Ok(true)
}

fn add_foreign(run: &mut Run, dice: &mut Dice, key: Key) -> Result<(), AllocError> {
    let hart = if dice.below(2) == 0 { 0 } else { 2 };
    let w = Write {
        key: Key { hart, ..key },
        line: line_of(dice.below(3) == 0),
        mask: 1 + dice.below(3),
        bytes: [dice.below(3) as u8; 64],
    };
    add_write(run, w)?;
    Ok(())
}

fn add_store(
    run: &mut Run,
    stores: &mut Stores,
    dice: &mut Dice,
    seq: u32,
) -> Result<(), AllocError> {
    let place = dice.below(4);
    let value = two_bytes(dice);
    stores.commit(store_at(place, seq, value))?;
    run.events.push(Event::Store { place, seq, value })?;
    Ok(())
}

fn add_drain(
    run: &mut Run,
    stores: &mut Stores,
    dice: &mut Dice,
    key: Key,
) -> Result<(), AllocError> {
    if !stores.can_drain(key) {
        return Ok(());
    }
    let next = dice.below(3) == 0;
    let count = if dice.below(3) == 0 { 2 } else { 1 };
    let line = line_of(next);
    if let DrainAnswer::Took { mask, bytes } = stores.would_drain(line, count) {
        if add_write(
            run,
            Write {
                key,
                line,
                mask,
                bytes,
            },
        )? {
            stores.drain(key, line, count);
            run.events.push(Event::Drain {
                key,
                next,
                count,
                mask,
            })?;
        }
    }
    Ok(())
}

fn add_load(run: &mut Run, dice: &mut Dice, key: Key) -> Result<(), AllocError> {
    let place = dice.below(4);
    let early = dice.below(2) == 0;
    let raw = two_bytes(dice);
    run.events.push(Event::Load {
        place,
        key,
        early,
        raw,
    })?;
    Ok(())
}

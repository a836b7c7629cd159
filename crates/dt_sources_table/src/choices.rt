ghost use Rattle.std.specs.Prelude.{IsTrue};
ghost use Rattle.dt_record.specs.Lawful.{is_ram_line};

use crate::runs::{Event, Run, line_of, load_at, store_at};
use dt_local::Local;
use dt_record::Key;
use dt_sources::{Found, LoadAsk, Origin, Sources, find};
use dt_stores::Stores;
use std::alloc::{AllocError, Global};

/// The moments that `find` gives load after load, up to the first load that it refuses.
pub fn choices(alloc: Global, run: &Run) -> Result<Vec<Option<u32>>, AllocError> {
    let mut stores = Stores::new(alloc);
    let mut local = Local::new(alloc);
    let mut moments = Vec::new(alloc);
    for event in &run.events {
        match event {
            Event::Store { place, seq, value } => stores.commit(store_at(*place, *seq, *value))?,
            Event::Drain {
                key,
                next,
                count,
                mask,
            } => {
                if stores.can_drain(*key) {
                    stores.drain(*key, line_of(*next), *count);
                    note(&mut local, line_of(*next), *mask, *key)?;
                }
            }
            Event::Load {
                place,
                key,
                early,
                raw,
            } => {
                let ask = load_at(*place, *key, *early, *raw);
                match find(&run.moments, &stores, &local, ask) {
                    Found::At { moment, sources } => {
                        note_sources(&mut local, ask, &sources)?;
                        moments.push(Some(moment))?;
                    }
                    Found::Nowhere => {
                        moments.push(None)?;
                        return Ok(moments);
                    }
                }
            }
        }
    }
    Ok(moments)
}

fn note(local: &mut Local, line: u64, mask: u64, key: Key) -> Result<(), AllocError>
    requires { IsTrue (is_ram_line line) }
{
    local.reserve(line, mask)?;
    local.note(line, mask, &[key; 64]);
    Ok(())
}

fn note_sources(local: &mut Local, ask: LoadAsk, sources: &Sources) -> Result<(), AllocError> {
    let next = ask.addr >= 0x8000_0040;
    for i in 0..2 {
        if let Origin::Write(key) = sources.from[i] {
            let mask = if i == 1 || ask.addr == 0x8000_0001 {
                2
            } else {
                1
            };
            note(local, line_of(next), mask, key)?;
        }
    }
    Ok(())
}

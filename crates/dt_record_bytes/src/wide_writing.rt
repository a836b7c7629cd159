ghost use Rattle.std.specs.Prelude.{◌≡◌, ◌++◌, OnOk};
ghost use Rattle.std.specs.List.{flat_map};
ghost use Rattle.dt_record.specs.Spelling.{half, word, double, retire_bytes, body_bytes};

use dt_record::{Body, Retire};
use std::alloc::AllocError;

#[tactic(auto, unfolding(dt_record::specs::Spelling::half))]
fn put_half(out: &mut Vec<u8>, number: u16) -> Result<(), AllocError>
    ensures { OnOk result (out.new.items ≡ out.old.items ++ half number) }
{
    out.extend_from_slice(&number.to_le_bytes())
}

#[tactic(auto, unfolding(dt_record::specs::Spelling::word))]
fn put_word(out: &mut Vec<u8>, number: u32) -> Result<(), AllocError>
    ensures { OnOk result (out.new.items ≡ out.old.items ++ word number) }
{
    out.extend_from_slice(&number.to_le_bytes())
}

#[tactic(auto, unfolding(dt_record::specs::Spelling::double))]
pub(crate) fn put_double(out: &mut Vec<u8>, number: u64) -> Result<(), AllocError>
    ensures { OnOk result (out.new.items ≡ out.old.items ++ double number) }
{
    out.extend_from_slice(&number.to_le_bytes())
}

fn put_doubles(out: &mut Vec<u8>, numbers: &[u64]) -> Result<(), AllocError>
    ensures { OnOk result (out.new.items ≡ out.old.items ++ flat_map double numbers.now) }
{
    for number in numbers {
        put_double(out, *number)?;
    }
    Ok(())
}

fn put_retire(out: &mut Vec<u8>, retire: &Retire) -> Result<(), AllocError>
    ensures { OnOk result (out.new.items ≡ out.old.items ++ retire_bytes retire.now) }
{
    put_double(out, retire.pc)?;
    put_word(out, retire.bits)?;
    put_double(out, retire.value)
}

/// Appends the fields of a kind.
pub(crate) fn put_body(out: &mut Vec<u8>, body: &Body) -> Result<(), AllocError>
    ensures { OnOk result (out.new.items ≡ out.old.items ++ body_bytes body.now) }
{
    match body {
        Body::Commit { retire } => put_retire(out, retire),
        Body::Trap {
            pc,
            bits,
            cause,
            tval,
        } => {
            put_double(out, *pc)?;
            put_word(out, *bits)?;
            put_double(out, *cause)?;
            put_double(out, *tval)
        }
        Body::Regs { pc, x } => {
            put_double(out, *pc)?;
            put_doubles(out, x)
        }
        Body::Csrs { mode, v } => {
            out.push(*mode)?;
            put_doubles(out, v)
        }
        Body::Load { retire, at, paddr } => {
            put_retire(out, retire)?;
            put_double(out, *at)?;
            put_double(out, *paddr)
        }
        Body::Store {
            pc,
            bits,
            paddr,
            value,
        } => {
            put_double(out, *pc)?;
            put_word(out, *bits)?;
            put_double(out, *paddr)?;
            put_double(out, *value)
        }
        Body::Atomic {
            retire,
            paddr,
            width,
            wrote,
            new,
        } => {
            put_retire(out, retire)?;
            put_double(out, *paddr)?;
            out.extend_from_slice(&[*width, u8::from(*wrote)])?;
            put_double(out, *new)
        }
        Body::Drain {
            line,
            mask,
            count,
            bytes,
        } => {
            put_double(out, *line)?;
            put_double(out, *mask)?;
            put_half(out, *count)?;
            out.extend_from_slice(bytes)
        }
        Body::Refill { line, bytes } => {
            put_double(out, *line)?;
            out.extend_from_slice(bytes)
        }
        Body::Beat => Ok(()),
    }
}

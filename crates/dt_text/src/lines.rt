ghost use Rattle.std.specs.Prelude.{◌≡◌, ◌++◌, OnOk, IfOk};
ghost use Rattle.dt_text.specs.Line.{retire_fields, body_text, line_text};

use crate::fields::{put_bytes, put_decimal, put_double, put_doubles, put_key, put_word};
use crate::printed::Printed;
use dt_record::{Body, Key, Record, Retire};
use std::alloc::{AllocError, Global};

fn put_retire(out: &mut Vec<u8>, retire: &Retire) -> Result<(), AllocError>
    ensures { OnOk result (out.new.items ≡ out.old.items ++ retire_fields retire.now) }
{
    put_double(out, "pc", retire.pc)?;
    put_word(out, "bits", retire.bits)?;
    put_double(out, "value", retire.value)
}

fn put_trap(out: &mut Vec<u8>, pc: u64, bits: u32, cause: u64, tval: u64) -> Result<(), AllocError>
    ensures { OnOk result (out.new.items ≡ out.old.items ++ body_text (Body.Trap pc bits cause tval)) }
{
    out.extend_from_slice(b"Trap")?;
    put_double(out, "pc", pc)?;
    put_word(out, "bits", bits)?;
    put_double(out, "cause", cause)?;
    put_double(out, "tval", tval)
}

fn put_regs(out: &mut Vec<u8>, pc: u64, x: &[u64; 31]) -> Result<(), AllocError>
    ensures { OnOk result (out.new.items ≡ out.old.items ++ body_text (Body.Regs pc x.now)) }
{
    out.extend_from_slice(b"Regs")?;
    put_double(out, "pc", pc)?;
    put_doubles(out, "x", x)
}

fn put_csrs(out: &mut Vec<u8>, mode: u8, v: &[u64; 17]) -> Result<(), AllocError>
    ensures { OnOk result (out.new.items ≡ out.old.items ++ body_text (Body.Csrs mode v.now)) }
{
    out.extend_from_slice(b"Csrs")?;
    put_decimal(out, "mode", u64::from(mode))?;
    put_doubles(out, "v", v)
}

fn put_load(out: &mut Vec<u8>, retire: &Retire, at: u64, paddr: u64) -> Result<(), AllocError>
    ensures { OnOk result (out.new.items ≡ out.old.items ++ body_text (Body.Load retire.now at paddr)) }
{
    out.extend_from_slice(b"Load")?;
    put_retire(out, retire)?;
    put_decimal(out, "at", at)?;
    put_double(out, "paddr", paddr)
}

fn put_store(
    out: &mut Vec<u8>,
    pc: u64,
    bits: u32,
    paddr: u64,
    value: u64,
) -> Result<(), AllocError>
    ensures { OnOk result (out.new.items ≡ out.old.items ++ body_text (Body.Store pc bits paddr value)) }
{
    out.extend_from_slice(b"Store")?;
    put_double(out, "pc", pc)?;
    put_word(out, "bits", bits)?;
    put_double(out, "paddr", paddr)?;
    put_double(out, "value", value)
}

fn put_atomic(
    out: &mut Vec<u8>,
    retire: &Retire,
    paddr: u64,
    width: u8,
    wrote: bool,
    new: u64,
) -> Result<(), AllocError>
    ensures { OnOk result (out.new.items ≡ out.old.items ++ body_text (Body.Atomic retire.now paddr width wrote new)) }
{
    out.extend_from_slice(b"Atomic")?;
    put_retire(out, retire)?;
    put_double(out, "paddr", paddr)?;
    put_decimal(out, "width", u64::from(width))?;
    put_decimal(out, "wrote", u64::from(wrote))?;
    put_double(out, "new", new)
}

fn put_drain(
    out: &mut Vec<u8>,
    line: u64,
    mask: u64,
    count: u16,
    bytes: &[u8; 64],
) -> Result<(), AllocError>
    ensures { OnOk result (out.new.items ≡ out.old.items ++ body_text (Body.Drain line mask count bytes.now)) }
{
    out.extend_from_slice(b"Drain")?;
    put_double(out, "line", line)?;
    put_double(out, "mask", mask)?;
    put_decimal(out, "count", u64::from(count))?;
    put_bytes(out, "bytes", bytes)
}

fn put_refill(out: &mut Vec<u8>, line: u64, bytes: &[u8; 64]) -> Result<(), AllocError>
    ensures { OnOk result (out.new.items ≡ out.old.items ++ body_text (Body.Refill line bytes.now)) }
{
    out.extend_from_slice(b"Refill")?;
    put_double(out, "line", line)?;
    put_bytes(out, "bytes", bytes)
}

fn put_body(out: &mut Vec<u8>, body: &Body) -> Result<(), AllocError>
    ensures { OnOk result (out.new.items ≡ out.old.items ++ body_text body.now) }
{
    match body {
        Body::Commit { retire } => {
            out.extend_from_slice(b"Commit")?;
            put_retire(out, retire)
        }
        Body::Trap {
            pc,
            bits,
            cause,
            tval,
        } => put_trap(out, *pc, *bits, *cause, *tval),
        Body::Regs { pc, x } => put_regs(out, *pc, x),
        Body::Csrs { mode, v } => put_csrs(out, *mode, v),
        Body::Load { retire, at, paddr } => put_load(out, retire, *at, *paddr),
        Body::Store {
            pc,
            bits,
            paddr,
            value,
        } => put_store(out, *pc, *bits, *paddr, *value),
        Body::Atomic {
            retire,
            paddr,
            width,
            wrote,
            new,
        } => put_atomic(out, retire, *paddr, *width, *wrote, *new),
        Body::Drain {
            line,
            mask,
            count,
            bytes,
        } => put_drain(out, *line, *mask, *count, bytes),
        Body::Refill { line, bytes } => put_refill(out, *line, bytes),
        Body::Beat => out.extend_from_slice(b"Beat"),
    }
}

/// The line of a record, with its line feed. `seq` is the record's number among its hart's
/// records, from 0.
#[tactic(auto, unfolding(crate::specs::Line::line_text))]
pub fn line(alloc: Global, event: &Record, seq: u32) -> Result<Printed, AllocError>
    ensures { IfOk result (λ printed. printed ≡ line_text seq event.now) }
{
    let mut text = Vec::new(alloc);
    put_key(
        &mut text,
        Key {
            stamp: event.stamp,
            hart: event.hart,
            seq,
        },
    )?;
    text.push(b' ')?;
    put_body(&mut text, &event.body)?;
    text.push(b'\n')?;
    Ok(Printed::of(text))
}

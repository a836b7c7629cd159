ghost use Rattle.std.specs.Prelude.{◌≡◌, ◌<◌, ◌≤◌, ◌^◌, ◌++◌, ℕ, List, length};
ghost use Rattle.dt_record.specs.declared.records.Record.{Record};
ghost use Rattle.dt_record.specs.Lawful.{FitsRetire, FitsList, FitsBody, FitsRecord, IsLawful};
ghost use Rattle.dt_record.specs.Tags.{tag_number};
ghost use Rattle.dt_record.specs.Spelling.{wide_bytes, end_bytes};
ghost use Rattle.dt_record_bytes.specs.declared.decoded.Decoded.{Decoded};
ghost use Rattle.dt_record_bytes.specs.WideAnswer.{IsWideAnswer, wide_length};

use dt_record::{Body, Record, Retire};

/// A law: a spelling begins no other spelling, and no end of a file. So what stands at the front of
/// bytes is one record or one end.
pub fn one_spelling()
    ensures records { (r q : Record) (x y : List ℕ) → FitsRecord r → FitsRecord q
        → wide_bytes r ++ x ≡ wide_bytes q ++ y → (r ≡ q) × (x ≡ y) }
    ensures ends { (m n : ℕ) (x y : List ℕ) → m < 2 ^ 64 → n < 2 ^ 64
        → end_bytes m ++ x ≡ end_bytes n ++ y → (m ≡ n) × (x ≡ y) }
    ensures apart { (r : Record) (count : ℕ) (x y : List ℕ) → FitsRecord r
        → wide_bytes r ++ x ≡ end_bytes count ++ y → ⊥ }
    ensures lengths { (r : Record) → FitsRecord r → wide_length (tag_number r.body) ≡ Some (length (wide_bytes r)) }
    ensures usual { (r : Record) → FitsRecord r
        → (10 ≤ length (wide_bytes r)) × (length (wide_bytes r) ≤ 266) }
{}

/// A law: the answer to what `encode` wrote is the record, whatever follows it.
pub fn read_back(event: &Record)
    requires { IsLawful event.now }
    ensures { (rest : List ℕ) (answer : Decoded) → IsWideAnswer (wide_bytes event.now ++ rest) answer
        → answer ≡ Decoded.Got event.now (length (wide_bytes event.now)) }
{
    fits(event);
}

/// A law: the numbers of each record fit their fields.
pub fn fits(event: &Record)
    ensures { FitsRecord event.now }
{
    let _stamp = event.stamp;
    let _hart = event.hart;
    fits_body(&event.body);
}

fn fits_body(body: &Body)
    ensures { FitsBody body.now }
{
    match body {
        Body::Commit { retire } => fits_retire(retire),
        Body::Trap {
            pc,
            bits,
            cause,
            tval,
        } => fits_trap(*pc, *bits, *cause, *tval),
        Body::Regs { pc, x } => fits_regs(*pc, x),
        Body::Csrs { mode, v } => fits_csrs(*mode, v),
        Body::Load { retire, at, paddr } => fits_load(retire, *at, *paddr),
        Body::Store {
            pc,
            bits,
            paddr,
            value,
        } => fits_store(*pc, *bits, *paddr, *value),
        Body::Atomic {
            retire,
            paddr,
            width,
            wrote,
            new,
        } => fits_atomic(retire, *paddr, *width, *wrote, *new),
        Body::Drain {
            line,
            mask,
            count,
            bytes,
        } => fits_drain(*line, *mask, *count, bytes),
        Body::Refill { line, bytes } => fits_refill(*line, bytes),
        Body::Beat => {}
    }
}

fn fits_trap(pc: u64, bits: u32, cause: u64, tval: u64)
    ensures { FitsBody (Body.Trap pc bits cause tval) }
{}

fn fits_regs(pc: u64, x: &[u64; 31])
    ensures { FitsBody (Body.Regs pc x.now) }
{
    fits_doubles(x);
}

fn fits_csrs(mode: u8, v: &[u64; 17])
    ensures { FitsBody (Body.Csrs mode v.now) }
{
    fits_doubles(v);
}

fn fits_load(retire: &Retire, at: u64, paddr: u64)
    ensures { FitsBody (Body.Load retire.now at paddr) }
{
    fits_retire(retire);
}

fn fits_store(pc: u64, bits: u32, paddr: u64, value: u64)
    ensures { FitsBody (Body.Store pc bits paddr value) }
{}

fn fits_atomic(retire: &Retire, paddr: u64, width: u8, wrote: bool, new: u64)
    ensures { FitsBody (Body.Atomic retire.now paddr width wrote new) }
{
    fits_retire(retire);
}

fn fits_drain(line: u64, mask: u64, count: u16, bytes: &[u8; 64])
    ensures { FitsBody (Body.Drain line mask count bytes.now) }
{
    fits_line(bytes);
}

fn fits_refill(line: u64, bytes: &[u8; 64])
    ensures { FitsBody (Body.Refill line bytes.now) }
{
    fits_line(bytes);
}

fn fits_retire(retire: &Retire)
    ensures { FitsRetire retire.now }
{
    let Retire {
        pc: _pc,
        bits: _bits,
        value: _value,
    } = *retire;
}

fn fits_doubles(numbers: &[u64])
    ensures { FitsList (length numbers.now) (2 ^ 64) numbers.now }
{}

fn fits_line(bytes: &[u8])
    ensures { FitsList (length bytes.now) (2 ^ 8) bytes.now }
{}

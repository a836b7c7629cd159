//! Laws of the definitions: each function's contract is the law, and its body is empty.
ghost use Rattle.std.specs.Prelude.{◌≡◌, ◌==◌, ℕ, ◌+◌, ◌<◌, ◌≤◌, ◌^◌, if◌then◌else◌, bit_and};
ghost use Rattle.std.specs.Int.{bit_at};
ghost use Rattle.dt_csr.specs.declared.fields.Field.{Field};
ghost use Rattle.dt_csr.specs.declared.state.Csrs.{Csrs};
ghost use Rattle.dt_csr.specs.Fields.{merged, mask_of, masks_of, field_of, with_field, IsSameOutside};
ghost use Rattle.dt_csr.specs.Modes.{IsMode};
ghost use Rattle.dt_csr.specs.Registers.{supervisor_fields};
ghost use Rattle.dt_csr.specs.Access.{written};
ghost use Rattle.dt_csr.specs.Traps.{trap_mode, entered, mret_mode, mret_pc, after_mret, sret_mode, sret_pc, after_sret};

use crate::mstatus::{MIE, SIE};
use crate::registers::Register;
use crate::{MACHINE, SUPERVISOR};

/// A masked write takes each bit under the mask from the new value, and every other bit from the
/// old one.
pub fn masked_by_bits()
    ensures { (mask old new i : ℕ) → mask < 2 ^ 64 → i < 64
        → bit_at (merged mask old new) i ≡ (if bit_at mask i == 1 then bit_at new i else bit_at old i) }
{}

/// A field that was put is read back.
pub fn put_is_got()
    ensures { (register value : ℕ) (field : Field) → field.low + field.width ≤ 64 → value < 2 ^ field.width
        → field_of (with_field register field value) field ≡ value }
{}

/// A field that is put leaves every field that shares no bit with it.
pub fn put_leaves_apart()
    ensures { (register value : ℕ) (field other : Field) → field.low + field.width ≤ 64 → other.low + other.width ≤ 64
        → bit_and (mask_of field) (mask_of other) ≡ 0
        → field_of (with_field register field value) other ≡ field_of register other }
{}

/// MRET after a trap into M returns to the mode and the pc of the trap, with MIE as it was.
pub fn mret_undoes_trap()
    ensures mode { (c : Csrs) (mode pc cause tval : ℕ) → IsMode mode → trap_mode c mode cause ≡ MACHINE
        → mret_mode (entered c mode pc cause tval) ≡ mode }
    ensures pc { (c : Csrs) (mode pc cause tval : ℕ) → trap_mode c mode cause ≡ MACHINE → mret_pc (entered c mode pc cause tval) ≡ pc }
    ensures enabled { (c : Csrs) (mode pc cause tval : ℕ) → trap_mode c mode cause ≡ MACHINE
        → field_of (after_mret (entered c mode pc cause tval)).mstatus MIE ≡ field_of c.mstatus MIE }
{}

/// SRET after a trap into S returns to the mode and the pc of the trap, with SIE as it was.
pub fn sret_undoes_trap()
    ensures mode { (c : Csrs) (mode pc cause tval : ℕ) → IsMode mode → trap_mode c mode cause ≡ SUPERVISOR
        → sret_mode (entered c mode pc cause tval) ≡ mode }
    ensures pc { (c : Csrs) (mode pc cause tval : ℕ) → trap_mode c mode cause ≡ SUPERVISOR → sret_pc (entered c mode pc cause tval) ≡ pc }
    ensures enabled { (c : Csrs) (mode pc cause tval : ℕ) → trap_mode c mode cause ≡ SUPERVISOR
        → field_of (after_sret (entered c mode pc cause tval)).mstatus SIE ≡ field_of c.mstatus SIE }
{}

/// A write of sstatus changes no bit of mstatus but those of its fields, and no other register.
pub fn sstatus_stays_inside()
    ensures outside { (c : Csrs) (value : ℕ)
        → IsSameOutside (masks_of supervisor_fields) c.mstatus (written c Register.Sstatus value).mstatus }
    ensures others { (c : Csrs) (value : ℕ)
        → written c Register.Sstatus value ≡ record c { mstatus = (written c Register.Sstatus value).mstatus } }
{}

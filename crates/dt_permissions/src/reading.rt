ghost use Rattle.std.specs.Prelude.{◌≡◌, ◌≢◌, ◌<◌, ◌≤◌, ◌+◌, ℕ, [], Err, IfOk, IfErr, IfSome, OnOk, OnErr, ◌⊎◌, length};
ghost use Rattle.dt_source.specs.Faults.{Rose};
ghost use Rattle.dt_source.specs.Known.{TakesFrom, TakesSome};
ghost use Rattle.dt_permissions.specs.Events.{ArePerms};
ghost use Rattle.dt_permissions.specs.Files.{perms_of};

use crate::files::perms_of;
use crate::perms::Perms;
use dt_source::{Failed, Source, read_behind};
use std::alloc::{AllocError, Global};

/// How many bytes are read into a local buffer at a time.
const CHUNK: usize = 4096;

/// How many bytes decide what a file says: a header, as many events as there may be, and one more.
const DECIDING: usize = 75_497_506;

/// Why there are no permissions. What was read of the source stays read.
#[derive(Clone, Copy, Debug, PartialEq, Eq)]
pub enum PermsRefusal {
    /// The bytes are no permission file. The first field of the header, event or end that isn't whole
    /// or breaks its bound begins there, or the first byte too many stands there.
    Malformed { offset: u64 },
    /// There were more events than a permission file may have.
    Limit,
    /// A read failed.
    ReadFault,
    /// There was no memory for the bytes or the events.
    OutOfMemory,
}

impl From<AllocError> for PermsRefusal {
    ghost use Rattle.dt_permissions.specs.declared.reading.PermsRefusal.TheVariants.{OutOfMemory};

    ghost from_gives = { λ _ refusal. refusal ≡ OutOfMemory };

    fn from(_: AllocError) -> PermsRefusal {
        PermsRefusal::OutOfMemory
    }
}

/// Reads a source to its end, or as far as its bytes decide what a file says.
fn read_deciding<S: Source>(alloc: Global, source: &mut S) -> Result<Vec<u8>, PermsRefusal>
    ensures within { IfOk result (λ bytes. length bytes.items ≤ DECIDING) }
    ensures takes { IfOk result (λ bytes.
        TakesFrom (S.left source.old) bytes.items (S.left source.new)) }
    ensures end { IfOk result (λ bytes. length bytes.items < DECIDING
        → IfSome (S.left source.new) (λ rest. rest ≡ [])) }
    ensures causes { IfErr result (λ refusal.
        (refusal ≡ PermsRefusal.ReadFault) ⊎ (refusal ≡ PermsRefusal.OutOfMemory)) }
    ensures fault_only { result ≡ Err PermsRefusal.ReadFault
        → Rose (S.faults source.old) (S.faults source.new) }
    ensures quiet { result ≢ Err PermsRefusal.ReadFault
        → S.faults source.new ≡ S.faults source.old }
    ensures refused_takes { OnErr result
        ((n : ℕ) × (n ≤ DECIDING) × TakesSome (S.left source.old) (S.left source.new) n) }
    ensures never_falls { S.faults source.old ≤ S.faults source.new }
{
    let mut bytes = Vec::new(alloc);
    let mut chunk = [0u8; CHUNK];
    while bytes.len() < DECIDING {
        let at = CHUNK - (DECIDING - bytes.len()).min(CHUNK);
        match read_behind(source, &mut chunk, at) {
            Ok(0) => return Ok(bytes),
            Ok(count) => bytes.extend_from_slice(&chunk[at..at + count])?,
            Err(Failed) => return Err(PermsRefusal::ReadFault),
        }
    }
    Ok(bytes)
}

/// Reads a permission file to its end. Of a file that is longer than any may be, at most 75,497,506
/// bytes are read.
pub fn read_perms<S: Source>(alloc: Global, source: &mut S) -> Result<Perms, PermsRefusal>
    // Whatever failed: another answer than those of a fault or of want of memory is that of the
    // bytes that were left.
    ensures answer { result ≢ Err PermsRefusal.ReadFault → result ≢ Err PermsRefusal.OutOfMemory
        → IfSome (S.left source.old) (λ bytes. result ≡ perms_of bytes) }

    // Where nothing failed and memory was not refused, that answer comes.
    ensures calm { (Rose (S.faults source.old) (S.faults source.new) → ⊥)
        → result ≢ Err PermsRefusal.OutOfMemory
        → IfSome (S.left source.old) (λ bytes. result ≡ perms_of bytes) }

    ensures lawful { IfOk result (λ perms. ArePerms perms.harts perms.events) }
    ensures end { OnOk result (IfSome (S.left source.new) (λ rest. rest ≡ [])) }
    ensures fault_only { result ≡ Err PermsRefusal.ReadFault
        → Rose (S.faults source.old) (S.faults source.new) }
    ensures quiet { result ≢ Err PermsRefusal.ReadFault
        → S.faults source.new ≡ S.faults source.old }
    ensures takes { (n : ℕ) × (n ≤ 75497506) × TakesSome (S.left source.old) (S.left source.new) n }
    ensures never_falls { S.faults source.old ≤ S.faults source.new }
{
    let bytes = read_deciding(alloc, source)?;
    perms_of(alloc, &bytes)
}

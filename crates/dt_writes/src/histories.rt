ghost use Rattle.std.specs.Prelude.{◌≡◌, ◌++◌, IsTrue, IfOk, OnOk, option_to_list};
ghost use Rattle.dt_record.specs.Lawful.{IsLawful};
ghost use Rattle.dt_record.specs.Writes.{by_key, no_records, write_of_record, writes_after, writes_of};
ghost use Rattle.dt_versions.specs.History.{history, IsKept};
ghost use Rattle.dt_writes.specs.Apart.{are_apart};
ghost use Rattle.dt_writes.specs.FileRecords.{AreFileRecords};

use dt_record::{Image, Record, Write, write_of};
use dt_versions::Moments;
use std::alloc::{AllocError, Global};

/// The memory over time of a file with these records, which come in the order of the file. After
/// want of memory the image is gone.
pub fn moments_of(alloc: Global, image: Image, records: &[Record]) -> Result<Moments, AllocError>
    requires { AreFileRecords records.now }
    ensures { IfOk result (λ moments. moments ≡ history image (writes_of records.now)) }
{
    let mut writes = listed(alloc, records)?;
    sort(&mut writes)?;
    moments_over(alloc, image, &writes)
}

/// The writes of the records, in the order of the records.
fn listed(alloc: Global, records: &[Record]) -> Result<Vec<Write>, AllocError>
    requires { AreFileRecords records.now }
    ensures { IfOk result (λ writes. writes.items ≡ writes_after no_records records.now) }
{
    let mut writes = Vec::new(alloc);
    let mut seqs = [0; 8];
    for event in records {
        let hart = usize::from(event.hart);
        list(&mut writes, event, seqs[hart])?;
        seqs[hart] += 1;
    }
    Ok(writes)
}

/// Lists the write that a record makes, where it makes one.
fn list(writes: &mut Vec<Write>, event: &Record, seq: u32) -> Result<(), AllocError>
    requires { IsLawful event.now }
    ensures { OnOk result (writes.new.items ≡ writes.old.items ++ option_to_list (write_of_record seq event.now)) }
{
    if let Some(w) = write_of(event, seq) {
        writes.push(w)?;
    }
    Ok(())
}

fn sort(writes: &mut Vec<Write>) -> Result<(), AllocError>
    requires { IsTrue (are_apart writes.old.items) }
    ensures { OnOk result (writes.new.items ≡ by_key writes.old.items) }
{
    writes.sort_by_key(|w| w.key)
}

/// The image and all of these writes over it, which stand in the order of their keys. After want of
/// memory the image is gone.
pub fn moments_over(alloc: Global, image: Image, writes: &[Write]) -> Result<Moments, AllocError>
    requires { IsKept (history image writes.now) }
    ensures { IfOk result (λ moments. moments ≡ history image writes.now) }
{
    let mut moments = Moments::empty(alloc, image);
    for w in writes {
        moments.add(*w)?;
    }
    Ok(moments)
}

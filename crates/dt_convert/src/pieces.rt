//! The pieces of a probe file.
ghost use Rattle.std.specs.Prelude.{◌≡◌, ◌<◌, ◌≤◌, ◌++◌, OnOk, slice_index, slice_set};
ghost use Rattle.dt_record.specs.Lawful.{IsLawful};
ghost use Rattle.dt_record.specs.ProbeFile.{header_bytes};
ghost use Rattle.dt_record.specs.Spelling.{end_bytes, record_bytes};
ghost use Rattle.dt_convert.specs.Convert.{version_of};

use crate::versions::{FileVersion, number_of};
use dt_record::Record;
use dt_record_bytes::encode;
use dt_short_bytes::encode2;
use std::alloc::AllocError;

/// The header of a file.
#[tactic(auto, using(crate::proofs::Headers::header_is))]
fn header_of(version: FileVersion, harts: u8, wide: bool) -> [u8; 16]
    ensures { result ≡ header_bytes (version_of version) harts wide }
{
    let mut header = *b"SMPDIFF\0\0\0\0\0\0\0\0\0";
    header[8] = number_of(version);
    header[10] = harts;
    header[11] = u8::from(wide);
    header
}

/// Appends the header of a file.
pub fn put_header(
    version: FileVersion,
    harts: u8,
    wide: bool,
    bytes: &mut Vec<u8>,
) -> Result<(), AllocError>
    ensures { OnOk result (bytes.new.items ≡ bytes.old.items ++ header_bytes (version_of version) harts wide) }
{
    bytes.extend_from_slice(&header_of(version, harts, wide))
}

/// Appends the spelling of a record. `last` is the stamp of its hart's record before it, or 0.
fn put_spelling(
    version: FileVersion,
    event: &Record,
    last: u64,
    bytes: &mut Vec<u8>,
) -> Result<(), AllocError>
    requires lawful { IsLawful event.now }
    requires stamp { last ≤ event.now.stamp }
    ensures { OnOk result (bytes.new.items ≡ bytes.old.items ++ record_bytes (version_of version) last event.now) }
{
    match version {
        FileVersion::One => encode(event, bytes),
        FileVersion::Two => encode2(event, last, bytes),
    }
}

/// Appends the spelling of the next record. `stamps` has the stamp of each hart's last record, or 0.
pub fn put_record(
    version: FileVersion,
    event: &Record,
    stamps: &mut [u64; 8],
    bytes: &mut Vec<u8>,
) -> Result<(), AllocError>
    requires lawful { IsLawful event.now }
    requires hart { event.now.hart < 8 }
    requires stamp { slice_index stamps.old event.now.hart ≤ event.now.stamp }
    ensures spelled { OnOk result (bytes.new.items ≡ bytes.old.items
        ++ record_bytes (version_of version) (slice_index stamps.old event.now.hart) event.now) }
    ensures stamped { OnOk result (stamps.new ≡ slice_set stamps.old event.now.hart event.now.stamp) }
{
    let hart = usize::from(event.hart);
    put_spelling(version, event, stamps[hart], bytes)?;
    stamps[hart] = event.stamp;
    Ok(())
}

/// Appends the end of a file that holds so many records.
#[tactic(auto, unfolding(dt_record::specs::Spelling::end_bytes, dt_record::specs::Spelling::double))]
pub fn put_end(count: u64, bytes: &mut Vec<u8>) -> Result<(), AllocError>
    ensures { OnOk result (bytes.new.items ≡ bytes.old.items ++ end_bytes count) }
{
    bytes.push(255)?;
    bytes.extend_from_slice(&count.to_le_bytes())
}

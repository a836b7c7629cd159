ghost use Rattle.std.specs.Prelude.{◌≡◌, ◌+◌, ◌^◌, ◌<◌, ◌≤◌, length, IfOk};
ghost use Rattle.dt_record.specs.Image.{image_byte};

use crate::limits::{IMAGE_LIMIT, RAM_END, RAM_START};
use std::alloc::{AllocError, Global};
use std::marker::Model;

/// A memory image: raw bytes that are placed at the start of RAM. The rest of RAM is zero. A
/// contract sees an image as the list of its bytes.
#[derive(Debug, Drop)]
pub struct Image {
    bytes: Vec<u8>,
}

impl Model for Image {
    ghost use Rattle.std.specs.Prelude.{List, ℕ, ◌≤◌, vec_len};
    ghost use Rattle.dt_record.specs.declared.limits.TheConstants.{IMAGE_LIMIT};

    ghost Value = { List ℕ };

    ghost view = { λ image. image.bytes.items };

    ghost invariant = { λ image. vec_len image.bytes ≤ IMAGE_LIMIT };
}

impl Image {
    /// The image of these bytes, at most `IMAGE_LIMIT` of them. The first stands at `RAM_START`.
    pub fn of(bytes: Vec<u8>) -> Image
        requires { length bytes.items ≤ IMAGE_LIMIT }
        ensures { result ≡ bytes.items }
    {
        Image { bytes }
    }

    /// The byte at an address of RAM when nothing has been written yet.
    pub fn byte(&self, addr: u64) -> u8
        requires in_ram { RAM_START ≤ addr }
        requires before_end { addr < RAM_END }
        ensures { result ≡ image_byte self.now addr }
    {
        let at = (addr - RAM_START) as usize;
        self.bytes.get(at).copied().unwrap_or(0)
    }

    /// The bytes.
    pub fn bytes(&self) -> &[u8]
        ensures { result.now ≡ self.now }
    {
        self.bytes.as_slice()
    }

    /// The same image in memory of its own. An `Err` is want of memory.
    pub fn copy(&self) -> Result<Image, AllocError>
        ensures { IfOk result (λ image. image ≡ self.now) }
    {
        let bytes = Vec::from_slice(*self.bytes.allocator(), self.bytes.as_slice())?;
        Ok(Image { bytes })
    }
}

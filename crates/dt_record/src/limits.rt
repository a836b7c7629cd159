/// How many harts a probe file may have.
pub const HART_LIMIT: u8 = 8;

/// How many records a probe file may have.
pub const RECORD_LIMIT: u32 = 4_194_304;

/// How many records of a probe file may write memory.
pub const WRITE_LIMIT: u32 = 1_048_576;

/// How many bytes an image may have.
pub const IMAGE_LIMIT: usize = 16_777_216;

/// The first address of RAM.
pub const RAM_START: u64 = 0x8000_0000;

/// The first address after RAM.
pub const RAM_END: u64 = 0x8400_0000;

/// How many bytes a line has.
pub const LINE_SIZE: u64 = 64;

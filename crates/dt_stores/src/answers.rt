ghost use Rattle.std.specs.Prelude.{◌≡◌};
ghost use Rattle.dt_stores.specs.Draining.{is_taking};

use dt_record::Key;

/// What a drain of a line did or would do.
#[derive(Clone, Copy, Debug, PartialEq, Eq)]
pub enum DrainAnswer {
    /// The oldest waiting stores of the line are written. Bit i of the mask says whether they have
    /// byte i of the line; a byte that they do not have is 0.
    Took { mask: u64, bytes: [u8; 64] },
    /// Fewer stores of the line wait than the drain counts: so many.
    Few { held: u32 },
    /// A store on another line, before a write-before-write fence, has to drain first. This is the
    /// `seq` of the oldest such.
    Barred { seq: u32 },
    /// Memory was refused. Nothing is written.
    OutOfMemory,
}

impl DrainAnswer {
    /// Whether the stores are written.
    pub fn is_taking(&self) -> bool
        ensures { result ≡ is_taking self.now }
    {
        matches!(self, DrainAnswer::Took { .. })
    }
}

/// A byte that a load has from a store of its own hart.
#[derive(Clone, Copy, Debug, PartialEq, Eq)]
pub struct Forward {
    /// The store's number among the records of the hart.
    pub seq: u32,
    pub byte: u8,
    /// The key of the drain that has taken the store, where one has.
    pub drained: Option<Key>,
}

/// Which stores are asked about.
#[derive(Clone, Copy, Debug, PartialEq, Eq)]
pub enum Which {
    All,
    /// Those on the line with this address.
    Line(u64),
    /// Those before the last write-before-read fence.
    BeforeWr,
    /// Those before the last write-before-write fence.
    BeforeWw,
}

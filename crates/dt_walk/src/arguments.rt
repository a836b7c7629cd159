/// What a translated address is used for. LR is a load; SC and the atomic memory operations are
/// stores.
#[derive(Clone, Copy, Debug, PartialEq, Eq)]
pub enum Access {
    Fetch,
    Load,
    Store,
}

/// A virtual address with all that decides its translation, besides the page tables.
#[derive(Clone, Copy, Debug, PartialEq, Eq)]
pub struct WalkArgs {
    /// The virtual address.
    pub va: u64,
    /// The physical address of the first table, a multiple of 4096: satp's PPN times 4096.
    pub root: u64,
    /// Whether addresses are translated at all.
    pub on: bool,
    /// How many levels the tables have: 3 (Sv39) or 4 (Sv48).
    pub levels: u8,
    pub access: Access,
    /// The effective mode: 0 for U, 1 for S.
    pub mode: u8,
    /// mstatus.SUM: S may load from and store to pages of U.
    pub sum: bool,
    /// mstatus.MXR: loads may read pages that are only executable.
    pub mxr: bool,
}

/// What a walk ends with.
#[derive(Clone, Copy, Debug, PartialEq, Eq)]
pub enum WalkAnswer {
    /// The physical address, of at most 56 bits where addresses are translated. Nothing says that
    /// there is memory.
    Page(u64),
    PageFault,
    /// A page-table entry lies outside RAM.
    AccessFault,
}

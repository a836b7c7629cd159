use dt_record::{Key, Sources};
use dt_step::Planned;

/// What was found of a hart's next record when it was judged.
#[derive(Clone, Copy, Debug, PartialEq, Eq)]
pub struct Findings {
    pub key: Key,
    /// The plan of the instruction that the record retires, or none where it is not told.
    pub plan: Option<Planned>,
    /// Where the bytes of a load from RAM, an LR or an AMO come from. Of no other record do they count.
    pub sources: Sources,
}

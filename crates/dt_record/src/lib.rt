//! Probe records: what a design writes down of each event, in which order events stand, and which
//! records are well formed. The definitions that several crates cite stand in `specs/`.
#![tactic(auto)]

mod accesses;
mod blocks;
mod images;
mod keys;
mod kinds;
mod lawfulness;
mod laws;
mod lending;
mod lent;
mod limits;
mod origins;
mod places;
mod reasons;
mod record_lists;
mod records;
mod spellings;
mod states;
mod steps;
mod streams;
#[cfg(test)]
mod tests;
mod writes;

pub use accesses::{LoadAsk, OwnStore};
pub use blocks::Block;
pub use images::Image;
pub use keys::{Key, key_of};
pub use kinds::{Kind, kind_of};
pub use lawfulness::{lawful, lawful_at};
pub use laws::{
    answers_go_on, judged_is_passed, keys_are_in_order, passed_goes_on, records_are_counted,
    undrained_wait,
};
pub use lent::{BodyAt, RecordAt, WordsAt};
pub use limits::{
    HART_LIMIT, IMAGE_LIMIT, LINE_SIZE, RAM_END, RAM_START, RECORD_LIMIT, WRITE_LIMIT,
};
pub use origins::{Letters, Origin, Sources};
pub use places::{is_in_ram, is_ram_line};
pub use reasons::Reason;
pub use record_lists::{Records, RecordsAt};
pub use records::{Body, Record, Retire, tag_at, tag_of};
pub use spellings::Version;
pub use states::{HartState, Known, KnownByte, PageMark, Pages};
pub use steps::Steps;
pub use streams::{Next, Probes, Stop};
pub use writes::{Note, What, Write, write_of, write_of_at, writes_memory};

use crate::Intake;
use dt_record::{Body, Key, Note, Record, Write};
use std::alloc::{AllocError, Global};
use std::test::Fail;

const DRAIN: Body = Body::Drain {
    line: 0x8000_0100,
    mask: 0x1,
    count: 1,
    bytes: [0; 64],
};

/// No mask bit is set, so that no record with it is lawful.
const EMPTY_DRAIN: Body = Body::Drain {
    line: 0x8000_0100,
    mask: 0,
    count: 1,
    bytes: [0; 64],
};

fn record(stamp: u64, hart: u8, body: Body) -> Record {
    Record { stamp, hart, body }
}

fn wrote(stamp: u64, hart: u8, seq: u32) -> Note {
    Note::Wrote(Write {
        key: Key { stamp, hart, seq },
        line: 0x8000_0100,
        mask: 0x1,
        bytes: [0; 64],
    })
}

const FEED_END: Record = Record {
    stamp: 0,
    hart: 255,
    body: Body::Beat,
};

/// Takes the records, as long as the feed has not ended.
fn take_all(intake: &mut Intake, records: &[Record]) -> Result<(), AllocError> {
    for event in records {
        intake.reserve()?;
        if !intake.has_ended() {
            intake.take(*event);
        }
    }
    Ok(())
}

fn tell(intake: &mut Intake, notes: &mut Vec<Note>) -> Result<(), AllocError> {
    intake.add_news(notes)?;
    intake.note_told();
    Ok(())
}

fn told(alloc: Global, intake: &mut Intake) -> Result<Vec<Note>, AllocError> {
    let mut notes = Vec::new(alloc);
    tell(intake, &mut notes)?;
    Ok(notes)
}

/// Each write is told once, with the number of its record, and each time how far the hart has come.
#[test]
fn tells_writes_once_and_then_the_end(rt: HostRuntime) -> Result<(), Fail> {
    let alloc = rt.alloc();
    let mut intake = Intake::new(alloc, 1);
    let mut notes = told(alloc, &mut intake)?;
    assert_eq!(rt; notes.len(), 0);
    assert!(rt; !intake.has_news());
    let beat = record(3, 1, Body::Beat);
    take_all(&mut intake, &[beat, record(5, 1, DRAIN)])?;
    assert!(rt; intake.has_news());
    tell(&mut intake, &mut notes)?;
    let mark = Note::Mark { hart: 1, stamp: 5 };
    assert_eq!(rt; notes.as_slice(), [wrote(5, 1, 1), mark].as_slice());
    tell(&mut intake, &mut notes)?;
    assert_eq!(rt; notes.as_slice(), [wrote(5, 1, 1), mark, mark].as_slice());
    let last = record(9, 1, DRAIN);
    take_all(&mut intake, &[record(5, 1, Body::Beat), last])?;
    assert!(rt; !intake.is_over());
    take_all(&mut intake, &[FEED_END, record(10, 1, DRAIN)])?;
    assert!(rt; intake.is_over());
    let end = Note::End { hart: 1 };
    let news = told(alloc, &mut intake)?;
    assert_eq!(rt; news.as_slice(), [wrote(9, 1, 3), end].as_slice());
    assert!(rt; !intake.has_news());
    assert_eq!(rt; intake.usable().len(), 4);
    assert_eq!(rt; intake.hart(), 1);
    let taken = intake.into_taken();
    assert_eq!(rt; taken.get(3), Some(&last));
    assert_eq!(rt; taken.len(), 4);
    Ok(())
}

/// From the first record on that cannot come next, nothing is told: no write, no later mark, no end.
#[test]
fn tells_nothing_from_an_unusable_record_on(rt: HostRuntime) -> Result<(), Fail> {
    let alloc = rt.alloc();
    let unusable = [
        record(7, 0, DRAIN),
        record(4, 1, DRAIN),
        record(7, 1, EMPTY_DRAIN),
        record(7, 255, DRAIN),
    ];
    for (place, event) in unusable.iter().enumerate() {
        let mut intake = Intake::new(alloc, 1);
        take_all(&mut intake, &[record(5, 1, DRAIN), *event])?;
        take_all(&mut intake, &[record(8, 1, DRAIN), FEED_END])?;
        let news = told(alloc, &mut intake)?;
        let first = [wrote(5, 1, 0), Note::Mark { hart: 1, stamp: 5 }];
        assert_eq!(rt; news.as_slice(), first.as_slice(), "record {place}");
        assert!(rt; intake.has_ended());
        assert!(rt; !intake.is_over());
        assert_eq!(rt; intake.usable().len(), 1);
        assert_eq!(rt; intake.into_taken().len(), 3);
    }
    Ok(())
}

/// An End is news until it was told, also where no record is.
#[test]
fn an_end_is_told_once(rt: HostRuntime) -> Result<(), Fail> {
    let alloc = rt.alloc();
    let mut intake = Intake::new(alloc, 1);
    take_all(&mut intake, &[record(5, 1, Body::Beat)])?;
    told(alloc, &mut intake)?;
    assert!(rt; !intake.has_news());
    take_all(&mut intake, &[FEED_END])?;
    assert!(rt; intake.has_news());
    let news = told(alloc, &mut intake)?;
    assert_eq!(rt; news.as_slice(), [Note::End { hart: 1 }].as_slice());
    assert!(rt; !intake.has_news());
    Ok(())
}

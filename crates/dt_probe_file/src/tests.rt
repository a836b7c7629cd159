use crate::FileProbes;
use dt_record::{Body, Next, Probes, Record, Retire};
use dt_source::MemSource;
use std::alloc::Global;
use std::test::Fail;

/// A file of version 1 in which hart 0 commits addi x1,x0,5 at the start of RAM in cycle 1.
const WIDE: [u8; 55] = [
    0x53, 0x4d, 0x50, 0x44, 0x49, 0x46, 0x46, 0, 1, 0, 1, 0, 0, 0, 0, 0, 1, 0, 1, 0, 0, 0, 0, 0, 0,
    0, 0, 0, 0, 0x80, 0, 0, 0, 0, 0x93, 0, 0x50, 0, 5, 0, 0, 0, 0, 0, 0, 0, 0xff, 1, 0, 0, 0, 0, 0,
    0, 0,
];

/// The same file in version 2.
const SHORT: [u8; 39] = [
    0x53, 0x4d, 0x50, 0x44, 0x49, 0x46, 0x46, 0, 2, 0, 1, 0, 0, 0, 0, 0, 1, 0, 1, 7, 0x80, 0x80,
    0x80, 0x80, 8, 0x93, 0x81, 0xc0, 2, 5, 0xff, 1, 0, 0, 0, 0, 0, 0, 0,
];

const PIECES: [usize; 3] = [1, 7, 64];

fn commit() -> Record {
    Record {
        stamp: 1,
        hart: 0,
        body: Body::Commit {
            retire: Retire {
                pc: 0x8000_0000,
                bits: 0x0050_0093,
                value: 5,
            },
        },
    }
}

/// The answers that come, four of them at most.
fn answers_in(alloc: Global, bytes: &[u8], piece: usize, fail: &[u64]) -> Result<Vec<Next>, Fail> {
    let source = MemSource::new(bytes.to_vec(alloc)?, piece, fail.to_vec(alloc)?);
    let mut probes = FileProbes::new(alloc, source)?;
    let mut answers = Vec::new(alloc);
    for _ in 0..4u8 {
        if !probes.is_over() {
            answers.push(probes.next())?;
        }
    }
    Ok(answers)
}

#[test]
fn both_versions_give_the_header_the_record_and_the_end(rt: HostRuntime) -> Result<(), Fail> {
    let wanted = [
        Next::Header {
            harts: 1,
            wide: false,
        },
        Next::Event(commit()),
        Next::End { count: 1 },
    ];
    for piece in PIECES {
        let wide = answers_in(rt.alloc(), &WIDE, piece, &[])?;
        assert_eq!(rt; wide.as_slice(), wanted.as_slice());
        let short = answers_in(rt.alloc(), &SHORT, piece, &[])?;
        assert_eq!(rt; short.as_slice(), wanted.as_slice());
    }
    Ok(())
}

#[test]
fn a_failing_read_ends_the_stream(rt: HostRuntime) -> Result<(), Fail> {
    for call in 0..4u64 {
        let answers = answers_in(rt.alloc(), &WIDE, 20, &[call])?;
        assert_eq!(rt; answers.last().copied(), Some(Next::ReadFault));
    }
    Ok(())
}

/// The first read gives the whole file and the second one fails: it comes only behind the end.
#[test]
fn what_is_held_is_answered_before_a_read(rt: HostRuntime) -> Result<(), Fail> {
    let header = Next::Header {
        harts: 1,
        wide: false,
    };
    let mut wrong = WIDE;
    wrong[16] = 0xee;
    let answers = answers_in(rt.alloc(), &wrong, 64, &[1])?;
    assert_eq!(rt;
        answers.as_slice(),
        [header, Next::Malformed { offset: 16 }].as_slice()
    );
    let answers = answers_in(rt.alloc(), &WIDE, 64, &[1])?;
    assert_eq!(rt;
        answers.as_slice(),
        [header, Next::Event(commit()), Next::ReadFault].as_slice()
    );
    Ok(())
}

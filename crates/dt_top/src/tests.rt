//! Reports, and calls that fail. `checks/worked-rows` and `checks/commands` try the program over many
//! more files and words.
use crate::{run_check, run_plain};
use dt_record::IMAGE_LIMIT;
use dt_source::{Failed, FreeGate, MemSink, MemSource, Source};
use std::alloc::{AllocError, Global};
use std::process::Abort;
use std::test::Fail;

const PASS: &[&str] = &["pass", "IMAGE", "PROBES"];

const DUMP: &[&str] = &["dump", "PROBES"];

const CHECK: &[&str] = &["check", "--workers", "3", "IMAGE", "PROBES"];

const TO_2: &[&str] = &["convert", "--to", "2", "PROBES"];

/// addi x1,x0,5 at the start of RAM.
const IMAGE: &[u8] = &[0x93, 0x00, 0x50, 0x00];

/// Hart 0 commits it in cycle 1 with the value 5.
const FILE: &str = "534d504449464600010001000000000001000100000000000000\
    0000008000000000930050000500000000000000ff0100000000000000";

/// The line of its record.
const LINE: &str = "1.0.0 Commit pc=0000000080000000 bits=00500093 value=0000000000000005\n";

/// What its check prints.
const PASSED: &[u8] = b"PASS\nharts=1 records=1 writes=0\n\
    hart 0 retired=1 traps=0 loads=0 stores=0 atomics=0 drains=0\n\
    rules L=0 S=0 P=0 I=0 D=0 C=0 Z=0\n";

/// The same in version 2.
const FILE_2: &str = "534d5044494646000200010000000000010001078080808008\
    9381c00205ff0100000000000000";

/// The first value is 6, and the second record is of a hart that the file does not have.
const TWICE_WRONG: &str = "534d504449464600010001000000000001000100000000000000\
    000000800000000093005000060000000000000001010100000000000000\
    000000800000000093005000050000000000000001000100000000000000\
    000000800000000093005000050000000000000001000100000000000000\
    0000008000000000930050000500000000000000ff0400000000000000";

/// How sources and sink behave.
#[derive(Clone, Copy, Debug)]
struct Outside {
    piece: usize,
    image_fails: u64,
    probes_fail: u64,
    sink_fails: u64,
    room: usize,
}

/// No call has this number.
const NEVER: u64 = u64::MAX;

const CALM: Outside = Outside {
    piece: 20,
    image_fails: NEVER,
    probes_fail: NEVER,
    sink_fails: NEVER,
    room: 1000,
};

/// An image without bytes that counts how often it is read.
#[derive(Debug, Drop)]
struct Counting {
    reads: u64,
}

impl Source for Counting {
    ghost use Rattle.std.specs.Prelude.{None};

    ghost left = { λ _. None };

    ghost faults = { λ _. 0 };

    fn read(&mut self, _buf: &mut [u8]) -> Result<usize, Failed> {
        self.reads = self.reads.saturating_add(1);
        Ok(0)
    }
}

fn owned(alloc: Global, words: &[&str]) -> Result<Vec<String>, AllocError> {
    let mut all = Vec::new(alloc);
    for word in words {
        all.push(String::from_str(alloc, word)?)?;
    }
    Ok(all)
}

/// Runs the program on words, an image and a probe file.
fn run_over<I: Source>(
    alloc: Global,
    words: &[&str],
    image: &mut I,
    probes: &str,
    outside: Outside,
) -> Result<(u8, Vec<u8>), Fail> {
    let all = owned(alloc, words)?;
    let probes = hex::decode(alloc, probes)?;
    let mut probes = MemSource::new(probes, outside.piece, vec![in alloc; outside.probes_fail]?);
    let mut out = MemSink::new(alloc, outside.room, vec![in alloc; outside.sink_fails]?)?;
    let status = run_plain(alloc, &all, image, &mut probes, &mut out);
    Ok((status, Vec::from_slice(alloc, out.bytes())?))
}

/// Sees that the program answers so.
fn expect(
    rt: &(impl Abort + AllocGlobal),
    words: &[&str],
    probes: &str,
    outside: Outside,
    status: u8,
    text: &[u8],
) -> Result<(), Fail> {
    let image = Vec::from_slice(rt.alloc(), IMAGE)?;
    let fails = vec![in rt.alloc(); outside.image_fails]?;
    let mut image = MemSource::new(image, outside.piece, fails);
    let (found, written) = run_over(rt.alloc(), words, &mut image, probes, outside)?;
    assert_eq!(rt; written.as_slice(), text, "{outside:?}");
    assert_eq!(rt; found, status, "{outside:?}");
    Ok(())
}

#[test]
fn a_file_has_its_report(rt: HostRuntime) -> Result<(), Fail> {
    for piece in [1, 20, 64] {
        let outside = Outside { piece, ..CALM };
        expect(&rt, PASS, FILE, outside, 0, PASSED)?;
        expect(&rt, PASS, TWICE_WRONG, outside, 4, b"MALFORMED offset=46\n")?;
        let two = hex::decode(rt.alloc(), FILE_2)?;
        expect(&rt, TO_2, FILE, outside, 0, &two)?;
        expect(&rt, CHECK, FILE, outside, 2, b"USAGE\n")?;
    }
    Ok(())
}

#[test]
fn workers_have_the_same_report(rt: HostRuntime) -> Result<(), Fail> {
    for (words, probes, status, text) in [
        (CHECK, FILE, 0, PASSED),
        (CHECK, TWICE_WRONG, 4, b"MALFORMED offset=46\n".as_slice()),
        (PASS, FILE, 2, b"USAGE\n".as_slice()),
    ] {
        let alloc = rt.alloc();
        let words = owned(alloc, words)?;
        let image = Vec::from_slice(alloc, IMAGE)?;
        let mut image = MemSource::new(image, 20, Vec::new(alloc));
        let mut probes = MemSource::new(hex::decode(alloc, probes)?, 20, Vec::new(alloc));
        let mut out = MemSink::new(alloc, 1000, Vec::new(alloc))?;
        let found = run_check(
            &rt,
            alloc,
            &words,
            &mut image,
            &mut probes,
            &mut out,
            &FreeGate,
        );
        assert_eq!(rt; out.bytes(), text);
        assert_eq!(rt; found, status);
    }
    Ok(())
}

#[test]
fn an_image_is_read_where_the_task_reads_one(rt: HostRuntime) -> Result<(), Fail> {
    for (words, reads) in [(PASS, true), (DUMP, false), (TO_2, false), (CHECK, false)] {
        let mut image = Counting { reads: 0 };
        run_over(rt.alloc(), words, &mut image, FILE, CALM)?;
        assert_eq!(rt; image.reads > 0, reads, "{words:?}");
    }
    Ok(())
}

#[test]
fn an_image_that_is_too_long_comes_before_a_fault_of_the_probe_file(
    rt: HostRuntime,
) -> Result<(), Fail> {
    let bytes = vec![in rt.alloc(); 0u8; IMAGE_LIMIT + 1]?;
    let mut image = MemSource::new(bytes, IMAGE_LIMIT, Vec::new(rt.alloc()));
    let outside = Outside {
        probes_fail: 0,
        ..CALM
    };
    let (status, text) = run_over(rt.alloc(), PASS, &mut image, FILE, outside)?;
    assert_eq!(rt; text.as_slice(), b"IMAGE TOO LONG\n".as_slice());
    assert_eq!(rt; status, 3);
    Ok(())
}

#[test]
fn a_failed_read_shows_in_status_and_text(rt: HostRuntime) -> Result<(), Fail> {
    let behind = format!(in rt.alloc(); "{LINE}READ FAULT probes\n")?;
    let alone = "READ FAULT probes\n";
    for (call, dumped) in [(0, alone), (1, alone), (2, alone), (3, behind.as_str())] {
        let outside = Outside {
            probes_fail: call,
            ..CALM
        };
        expect(&rt, PASS, FILE, outside, 5, alone.as_bytes())?;
        expect(&rt, TO_2, FILE, outside, 5, alone.as_bytes())?;
        expect(&rt, DUMP, FILE, outside, 5, dumped.as_bytes())?;
    }
    for call in 0..2 {
        let outside = Outside {
            image_fails: call,
            probes_fail: 0,
            ..CALM
        };
        expect(&rt, PASS, FILE, outside, 5, b"READ FAULT image\n")?;
    }
    Ok(())
}

#[test]
fn the_first_refusal_of_a_file_decides(rt: HostRuntime) -> Result<(), Fail> {
    for (call, status, text) in [
        (1, 5, "READ FAULT probes\n"),
        (6, 4, "MALFORMED offset=46\n"),
    ] {
        let outside = Outside {
            probes_fail: call,
            ..CALM
        };
        expect(&rt, PASS, TWICE_WRONG, outside, status, text.as_bytes())?;
    }
    // The first read gives the whole file, and the one behind it would fail.
    let outside = Outside {
        piece: 1000,
        probes_fail: 1,
        ..CALM
    };
    for words in [PASS, TO_2] {
        expect(
            &rt,
            words,
            TWICE_WRONG,
            outside,
            4,
            b"MALFORMED offset=46\n",
        )?;
    }
    Ok(())
}

#[test]
fn a_failed_write_leaves_a_front_of_the_text(rt: HostRuntime) -> Result<(), Fail> {
    let two = hex::decode(rt.alloc(), FILE_2)?;
    for (sink_fails, room) in [(0, 1000), (NEVER, 10), (1, 10)] {
        let outside = Outside {
            sink_fails,
            room,
            ..CALM
        };
        for (words, text) in [
            (PASS, b"PASS\nharts".as_slice()),
            (DUMP, b"1.0.0 Comm".as_slice()),
            (TO_2, &two[..two.len().min(10)]),
        ] {
            let front = if sink_fails == 0 { &text[..0] } else { text };
            expect(&rt, words, FILE, outside, 6, front)?;
        }
    }
    Ok(())
}

//! Reports of checks by hand.
ghost use Rattle.std.specs.Prelude.{◌≤◌, length};

use crate::{Text, put_failed, report, report_behind};
use dt_record::{Key, Letters, Origin, Reason, Sources};
use dt_verdict::{Checked, Counts, Failure, HartCounts, Noted, NotedRecords, Tallies, Verdict};
use std::alloc::{AllocError, Global};

const NO_LETTERS: Letters = Letters {
    l: false,
    s: false,
    p: false,
    i: false,
    d: false,
    c: false,
    z: false,
};

const NO_RECORDS: Counts = Counts {
    records: 0,
    writes: 0,
    retired: 0,
    traps: 0,
    loads: 0,
    stores: 0,
    atomics: 0,
    drains: 0,
};

fn checked(
    alloc: Global,
    verdict: Verdict,
    counts: &[Counts],
    notes: &[Noted],
) -> Result<Checked, AllocError>
    requires { length counts.now ≤ 8 }
{
    let tallies = Tallies {
        harts: HartCounts::of(Vec::from_slice(alloc, counts)?),
        notes: NotedRecords::of(Vec::from_slice(alloc, notes)?),
    };
    Ok(Checked {
        verdict,
        harts: counts.len() as u8,
        tallies,
    })
}

fn noted(key: (u64, u8, u32), letters: Letters, count: u8, from: [Origin; 8]) -> Noted {
    let (stamp, hart, seq) = key;
    Noted {
        key: Key { stamp, hart, seq },
        letters,
        sources: Sources { count, from },
    }
}

/// The first record of hart 0 has another value than is due.
const FIRST_VALUE: Failure = Failure {
    key: Key {
        stamp: 1,
        hart: 0,
        seq: 0,
    },
    reason: Reason::Value,
    expected: 5,
    found: 6,
};

#[test]
fn one_addition_passes_or_fails(rt: HostRuntime) -> Result<(), AllocError> {
    let one = Counts {
        records: 1,
        retired: 1,
        ..NO_RECORDS
    };
    let passed = checked(rt.alloc(), Verdict::Pass, &[one], &[])?;
    let text = b"PASS
harts=1 records=1 writes=0
hart 0 retired=1 traps=0 loads=0 stores=0 atomics=0 drains=0
rules L=0 S=0 P=0 I=0 D=0 C=0 Z=0
";
    assert_eq!(rt;
        report(rt.alloc(), &passed, false)?.bytes(),
        text.as_slice()
    );
    assert_eq!(rt; report(rt.alloc(), &passed, true)?.bytes(), text.as_slice());

    let failed = checked(rt.alloc(), Verdict::Fail(FIRST_VALUE), &[NO_RECORDS], &[])?;
    let text =
        b"FAIL stamp=1 hart=0 seq=0 reason=8 Value expected=0000000000000005 found=0000000000000006
harts=1 records=0 writes=0
hart 0 retired=0 traps=0 loads=0 stores=0 atomics=0 drains=0
rules L=0 S=0 P=0 I=0 D=0 C=0 Z=0
";
    assert_eq!(rt;
        report(rt.alloc(), &failed, false)?.bytes(),
        text.as_slice()
    );
    Ok(())
}

#[test]
fn text_stands_before_and_behind(rt: HostRuntime) -> Result<(), AllocError> {
    let passed = checked(rt.alloc(), Verdict::Pass, &[NO_RECORDS], &[])?;
    let before = Text::of(Vec::from_slice(rt.alloc(), b"before\n")?);
    let mut text = report_behind(before, &passed, false)?.into_vec();
    put_failed(&mut text, &FIRST_VALUE)?;
    let whole = b"before
PASS
harts=1 records=0 writes=0
hart 0 retired=0 traps=0 loads=0 stores=0 atomics=0 drains=0
rules L=0 S=0 P=0 I=0 D=0 C=0 Z=0
FAIL stamp=1 hart=0 seq=0 reason=8 Value";
    assert_eq!(rt; text.as_slice(), whole.as_slice());
    Ok(())
}

#[test]
fn notes_name_letters_and_runs(rt: HostRuntime) -> Result<(), AllocError> {
    let all = Letters {
        l: true,
        s: true,
        p: true,
        i: true,
        d: true,
        c: true,
        z: true,
    };
    let device = Letters {
        d: true,
        ..NO_LETTERS
    };
    let image = Origin::Image;
    let store = Origin::Store(2);
    let write = Origin::Write(Key {
        stamp: 10,
        hart: 0,
        seq: 5,
    });
    let double = [store, store, store, store, image, image, image, image];
    let word = [image, write, image, image, image, image, image, image];
    for (note, line) in [
        (
            noted((4, 0, 3), NO_LETTERS, 8, double),
            "note 4.0.3 rules=- from=0-3=store.2,4-7=image\n",
        ),
        (
            noted((1, 0, 0), device, 0, [image; 8]),
            "note 1.0.0 rules=D from=-\n",
        ),
        (
            noted((9, 7, 6), all, 4, word),
            "note 9.7.6 rules=LSPIDCZ from=0-0=image,1-1=10.0.5,2-3=image\n",
        ),
    ] {
        let checked = checked(rt.alloc(), Verdict::Pass, &[NO_RECORDS], &[note])?;
        let text = report(rt.alloc(), &checked, true)?;
        assert!(rt; text.bytes().ends_with(line.as_bytes()), "{line}");
    }
    Ok(())
}

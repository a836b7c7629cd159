use crate::{count, is_named, named};
use dt_record::{Key, Letters, Origin, Sources};
use dt_verdict::Noted;
use std::test::Fail;

const NO_LETTERS: Letters = Letters {
    l: false,
    s: false,
    p: false,
    i: false,
    d: false,
    c: false,
    z: false,
};

const fn key(stamp: u64, hart: u8, seq: u32) -> Key {
    Key { stamp, hart, seq }
}

fn sources(count: u8) -> Sources {
    Sources {
        count,
        from: [Origin::Image; 8],
    }
}

#[test]
fn notes_of_two_harts_stand_by_key(rt: HostRuntime) -> Result<(), Fail> {
    let letters = Letters {
        l: true,
        ..NO_LETTERS
    };
    assert!(rt; is_named(&letters, &sources(0)));
    assert!(rt; is_named(&NO_LETTERS, &sources(8)));
    assert!(rt; !is_named(&NO_LETTERS, &sources(0)));
    let note = |key| Noted {
        key,
        letters,
        sources: sources(8),
    };
    let first = note(key(10, 0, 1));
    let last = note(key(12, 0, 3));
    let other = note(key(10, 1, 0));
    let behind = note(key(11, 1, 2));
    let notes = vec![in rt.alloc(); first, last, other, behind]?;
    let all = named(notes.clone()?, None)?;
    assert_eq!(rt; all.items(), [first, other, behind, last].as_slice());
    let below = named(notes, Some(last.key))?;
    assert_eq!(rt; below.items(), [first, other, behind].as_slice());
    Ok(())
}

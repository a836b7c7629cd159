//! Files in pieces of several sizes, cut and broken files, failing reads, files of as many events as
//! there may be and of one more, and what is held after each event.
use crate::{EVENT_LIMIT, Held, PermEvent, Perms, PermsRefusal, held_after, read_perms};
use dt_source::{CalmSource, MemSource};
use std::alloc::{AllocError, Global};
use std::test::Fail;

const LINE: u64 = 0x8000_0100;

fn event(op: u8, hart: u8, stamp: u64, line: u64) -> PermEvent {
    PermEvent {
        op,
        hart,
        stamp,
        line,
    }
}

/// A Write that is taken back two cycles later, between two Reads of another hart.
fn events() -> [PermEvent; 4] {
    [
        event(1, 1, 3, LINE + 64),
        event(2, 0, 10, LINE),
        event(3, 0, 12, LINE),
        event(1, 1, 12, LINE),
    ]
}

fn header(alloc: Global, harts: u8) -> Result<Vec<u8>, AllocError> {
    let mut bytes = Vec::from_slice(alloc, b"SMPDPERM")?;
    bytes.push(harts)?;
    bytes.extend_from_slice(&[0; 7])?;
    Ok(bytes)
}

fn add_event(bytes: &mut Vec<u8>, event: &PermEvent) -> Result<(), AllocError> {
    bytes.extend_from_slice(&[event.op, event.hart])?;
    bytes.extend_from_slice(&event.stamp.to_le_bytes())?;
    bytes.extend_from_slice(&event.line.to_le_bytes())
}

fn add_end(bytes: &mut Vec<u8>, count: u64) -> Result<(), AllocError> {
    bytes.push(255)?;
    bytes.extend_from_slice(&count.to_le_bytes())
}

/// The file of two harts with `events()`: 97 bytes.
fn file(alloc: Global) -> Result<Vec<u8>, AllocError> {
    let mut bytes = header(alloc, 2)?;
    for event in &events() {
        add_event(&mut bytes, event)?;
    }
    add_end(&mut bytes, 4)?;
    Ok(bytes)
}

fn read(alloc: Global, bytes: Vec<u8>) -> Result<Perms, PermsRefusal> {
    read_perms(alloc, &mut CalmSource::new(bytes))
}

#[test]
fn a_file_is_read_in_any_pieces(rt: HostRuntime) -> Result<(), Fail> {
    for piece in [1, 17, 64, 4096] {
        let mut source = MemSource::new(file(rt.alloc())?, piece, Vec::new(rt.alloc()));
        let Ok(perms) = read_perms(rt.alloc(), &mut source) else {
            panic!(rt; "pieces of {piece}");
        };
        assert_eq!(rt; perms.harts(), 2);
        assert_eq!(rt; perms.events().len(), 4);
        for (at, wanted) in events().iter().enumerate() {
            let event = perms.events().get(at).copied();
            assert_eq!(rt; event, Some(*wanted), "pieces of {piece}, event {at}");
        }
    }
    Ok(())
}

#[test]
fn the_last_event_of_a_hart_decides(rt: HostRuntime) -> Result<(), Fail> {
    let Ok(perms) = read(rt.alloc(), file(rt.alloc())?) else {
        panic!(rt; "the file");
    };
    assert_eq!(rt; perms.events().len(), 4);
    let writer = [
        Held::Nothing,
        Held::Nothing,
        Held::Write,
        Held::Nothing,
        Held::Nothing,
    ];
    let reader = [
        Held::Nothing,
        Held::Nothing,
        Held::Nothing,
        Held::Nothing,
        Held::Read,
    ];
    let beside = [
        Held::Nothing,
        Held::Read,
        Held::Read,
        Held::Read,
        Held::Read,
    ];
    for j in 0..5u32 {
        let at = j as usize;
        assert_eq!(rt; held_after(&perms, j, 0, LINE), writer[at], "{j} events");
        assert_eq!(rt; held_after(&perms, j, 1, LINE), reader[at], "{j} events");
        assert_eq!(rt;
            held_after(&perms, j, 1, LINE + 64),
            beside[at],
            "{j} events"
        );
        assert_eq!(rt; held_after(&perms, j, 7, LINE), Held::Nothing, "{j} events");
    }
    Ok(())
}

#[test]
fn a_cut_file_is_at_fault_where_its_last_field_begins(rt: HostRuntime) -> Result<(), Fail> {
    for count in 0..97usize {
        let offset = match count {
            0..8 => 0,
            8 => 8,
            9..16 => 9,
            16..34 => 16,
            34..52 => 34,
            52..70 => 52,
            70..88 => 70,
            _ => 88,
        };
        let mut bytes = file(rt.alloc())?;
        bytes.truncate(count);
        let refusal = read(rt.alloc(), bytes).err();
        assert_eq!(rt;
            refusal,
            Some(PermsRefusal::Malformed { offset }),
            "{count} bytes"
        );
    }
    let mut bytes = file(rt.alloc())?;
    bytes.push(0)?;
    let refusal = read(rt.alloc(), bytes).err();
    assert_eq!(rt; refusal, Some(PermsRefusal::Malformed { offset: 97 }));
    Ok(())
}

#[test]
fn a_broken_field_is_answered_with_its_place(rt: HostRuntime) -> Result<(), Fail> {
    // A place, the byte that is put there, and the place of the fault.
    let broken = [
        (0, 0x54, 0),
        (7, 0, 0),
        (8, 0, 8),
        (8, 9, 8),
        (8, 1, 16),
        (9, 1, 9),
        (15, 1, 9),
        (16, 0, 16),
        (16, 4, 16),
        (16, 255, 16),
        (17, 2, 16),
        (18, 11, 34),
        (26, 0x60, 16),
        (29, 0x7f, 16),
        (29, 0x84, 16),
        (30, 1, 16),
        (36, 13, 52),
        (36, 2, 34),
        (72, 11, 70),
        (88, 254, 88),
        (89, 3, 88),
        (96, 1, 88),
    ];
    for (at, byte, offset) in broken {
        let mut bytes = file(rt.alloc())?;
        if let Some(place) = bytes.get_mut(at) {
            *place = byte;
        }
        let refusal = read(rt.alloc(), bytes).err();
        assert_eq!(rt;
            refusal,
            Some(PermsRefusal::Malformed { offset }),
            "{byte} at {at}"
        );
    }
    Ok(())
}

#[test]
fn a_failed_read_is_answered(rt: HostRuntime) -> Result<(), Fail> {
    for call in 0..3 {
        let mut source = MemSource::new(file(rt.alloc())?, 60, vec![in rt.alloc(); call]?);
        let refusal = read_perms(rt.alloc(), &mut source).err();
        assert_eq!(rt; refusal, Some(PermsRefusal::ReadFault), "call {call}");
    }
    Ok(())
}

/// A header and so many times 4096 events.
fn long_file(alloc: Global, times: usize) -> Result<Vec<u8>, AllocError> {
    let mut events = Vec::new(alloc);
    for _ in 0..4096 {
        add_event(&mut events, &event(2, 0, 5, LINE))?;
    }
    let mut bytes = header(alloc, 1)?;
    for _ in 0..times {
        bytes.extend_from_slice(&events)?;
    }
    Ok(bytes)
}

#[test]
fn there_may_be_so_many_events(rt: HostRuntime) -> Result<(), Fail> {
    let mut bytes = long_file(rt.alloc(), 1024)?;
    add_end(&mut bytes, u64::from(EVENT_LIMIT))?;
    let Ok(perms) = read(rt.alloc(), bytes) else {
        panic!(rt; "as many events as there may be");
    };
    assert_eq!(rt; perms.events().len(), EVENT_LIMIT as usize);
    Ok(())
}

#[test]
fn there_may_be_no_event_more(rt: HostRuntime) -> Result<(), Fail> {
    let mut bytes = long_file(rt.alloc(), 1024)?;
    add_event(&mut bytes, &event(2, 0, 5, LINE))?;
    bytes.extend_from_slice(&[7; 40])?;
    let refusal = read(rt.alloc(), bytes).err();
    assert_eq!(rt; refusal, Some(PermsRefusal::Limit));
    Ok(())
}

#[test]
fn an_event_too_many_may_be_none(rt: HostRuntime) -> Result<(), Fail> {
    let mut bytes = long_file(rt.alloc(), 1024)?;
    let offset = bytes.len() as u64;
    add_event(&mut bytes, &event(4, 0, 5, LINE))?;
    let refusal = read(rt.alloc(), bytes).err();
    assert_eq!(rt; refusal, Some(PermsRefusal::Malformed { offset }));
    Ok(())
}

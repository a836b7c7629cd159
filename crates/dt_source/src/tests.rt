//! Values from outside, the real file and the real writer, and calls that fail.
use crate::{
    CalmSource, Failed, FileSource, Filled, FreeGate, Gate, GateEvent, MemSink, MemSource,
    ReadRefusal, Sink, Source, StdSink, fill, read_up_to, write_all,
};
use std::io::Write;
use std::test::Fail;
use std::{fs, io};

const TEXT: &[u8] = b"probe records";

#[test]
fn reads_whole_in_any_pieces(rt: HostRuntime) -> Result<(), Fail> {
    for piece in [0, 1, 5, 20, 64] {
        let bytes = Vec::from_slice(rt.alloc(), TEXT)?;
        let mut source = MemSource::new(bytes, piece, Vec::new(rt.alloc()));
        let Ok(read) = read_up_to(rt.alloc(), &mut source, 13) else {
            panic!(rt; "pieces of {piece}");
        };
        assert_eq!(rt; read.as_slice(), TEXT, "pieces of {piece}");
    }
    let mut source = CalmSource::new(Vec::from_slice(rt.alloc(), TEXT)?);
    let refusal = read_up_to(rt.alloc(), &mut source, 12).err();
    assert_eq!(rt; refusal, Some(ReadRefusal::TooLong));
    Ok(())
}

#[test]
fn fills_a_buffer(rt: HostRuntime) -> Result<(), Fail> {
    let bytes = Vec::from_slice(rt.alloc(), TEXT)?;
    let fail = vec![in rt.alloc(); 3]?;
    let mut source = MemSource::new(bytes, 4, fail);
    let mut buf = [0; 7];
    assert_eq!(rt; fill(&mut source, &mut buf), Filled::Full);
    assert_eq!(rt; buf, *b"probe r");
    assert_eq!(rt; fill(&mut source, &mut buf), Filled::Failed);
    assert_eq!(rt; fill(&mut source, &mut buf), Filled::Ended { count: 2 });
    assert_eq!(rt; &buf[..2], b"ds".as_slice());
    Ok(())
}

#[test]
fn a_free_gate_holds_nobody(_rt: HostRuntime) {
    FreeGate.at(GateEvent::Segment { number: 0 });
}

#[test]
fn a_failed_read_takes_nothing(rt: HostRuntime) -> Result<(), Fail> {
    for call in 0..5 {
        let bytes = Vec::from_slice(rt.alloc(), TEXT)?;
        let fail = vec![in rt.alloc(); call]?;
        let mut source = MemSource::new(bytes, 4, fail);
        let refusal = read_up_to(rt.alloc(), &mut source, 13).err();
        assert_eq!(rt; refusal, Some(ReadRefusal::ReadFault), "call {call}");
        let Ok(rest) = read_up_to(rt.alloc(), &mut source, 13) else {
            panic!(rt; "after call {call}");
        };
        let taken = (4 * call as usize).min(TEXT.len());
        assert_eq!(rt; rest.as_slice(), &TEXT[taken..], "after call {call}");
    }
    Ok(())
}

#[test]
fn a_sink_in_memory_fills_up(rt: HostRuntime) -> Result<(), Fail> {
    let mut sink = MemSink::new(rt.alloc(), 10, vec![in rt.alloc(); 1]?)?;
    assert_eq!(rt; write_all(&mut sink, b"probe"), Ok(()));
    assert_eq!(rt; write_all(&mut sink, b"!"), Err(Failed));
    assert_eq!(rt; write_all(&mut sink, b" records"), Err(Failed));
    assert_eq!(rt; sink.bytes(), b"probe reco".as_slice());
    assert_eq!(rt; sink.write(b""), Err(Failed));
    Ok(())
}

#[test]
fn a_file_is_read_or_its_fault_counted(rt: HostRuntime) -> Result<(), Fail> {
    let path = "dt_source_test_file";
    fs::write(&rt, path, TEXT)?;
    let mut source = FileSource::named(&rt, Some(path));
    let read = read_up_to(rt.alloc(), &mut source, 100);
    fs::remove_file(&rt, path)?;
    let Ok(read) = read else {
        panic!(rt; "the file was not read");
    };
    assert_eq!(rt; read.as_slice(), TEXT);

    let mut none = FileSource::named(&rt, None);
    assert_eq!(rt; none.read(&mut [0; 4]), Ok(0));
    for path in ["no/such/file", "/"] {
        let mut source = FileSource::named(&rt, Some(path));
        assert_eq!(rt; source.read(&mut [0; 4]), Err(Failed), "{path}");
        assert_eq!(rt; source.read(&mut [0; 4]), Err(Failed), "{path}");
    }
    Ok(())
}

/// A writer that takes `most` bytes in a call, and whose flush may fail.
#[derive(Drop)]
struct Narrow {
    most: usize,
    flushes: bool,
}

impl Write for Narrow {
    fn write(&mut self, buf: &[u8]) -> io::Result<usize> {
        Ok(self.most.min(buf.len()))
    }

    fn flush(&mut self) -> io::Result<()> {
        if self.flushes {
            Ok(())
        } else {
            Err(io::Error::from(io::ErrorKind::Other))
        }
    }
}

#[test]
fn a_writer_gets_the_text_or_its_fault_counted(rt: HostRuntime) -> Result<(), Fail> {
    let mut written = Vec::new(rt.alloc());
    let mut sink = StdSink::new(&mut written);
    assert_eq!(rt; write_all(&mut sink, TEXT), Ok(()));
    drop(sink);
    assert_eq!(rt; written.as_slice(), TEXT);

    for (most, flushes, answer) in [
        (3, true, Ok(())),
        (0, true, Err(Failed)),
        (3, false, Err(Failed)),
    ] {
        let mut sink = StdSink::new(Narrow { most, flushes });
        assert_eq!(rt; write_all(&mut sink, TEXT), answer, "{most} {flushes}");
    }
    Ok(())
}

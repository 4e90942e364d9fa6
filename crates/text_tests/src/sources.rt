ghost use Rattle.std.specs.Prelude.{◌≡◌, ◌<◌, ◌≤◌, ◌^◌, None, Some, IfOk, IfSome, length, map, vec_items};

use cyg_io::{
    CleanSink, CleanSource, Gate, MemSink, MemSource, OpenGate, Place, ReadAllFault, Sink, StdSink,
    StdSource, WriteFailed, read_all, write_all,
};
use std::alloc::Global;
use std::io::{Cursor, Error, ErrorKind, Read, Write};
use std::test::Fail;
use w32_base::Slot;

// What a caller knows of a source in memory that is read by generic code.
fn read_back(alloc: Global, bytes: Vec<u8>) -> Result<Vec<u8>, ReadAllFault>
    ensures same { IfOk result (λ v. v.items ≡ bytes.items) }
    ensures few { IfOk result (λ v. length bytes.items ≤ 1000) }
{
    let mut src = MemSource::new(bytes, Vec::new(alloc));
    read_all(alloc, &mut src, 1000)
}

#[test]
fn all_bytes_are_read(rt: HostRuntime) -> Result<(), Fail> {
    let alloc = rt.alloc();
    let bytes = read_back(alloc, [1, 2, 3].to_vec(alloc)?)?;
    assert_eq!(rt; bytes.as_slice(), [1, 2, 3].as_slice());

    // More than one chunk, and exactly as many as allowed.
    let mut src = MemSource::new(vec![in alloc; 7; 10_000]?, Vec::new(alloc));
    let bytes = read_all(alloc, &mut src, 10_000)?;
    assert_eq!(rt; bytes.len(), 10_000);
    assert_eq!(rt; src.faults(), 0);

    let mut src = CleanSource::new([4, 5].to_vec(alloc)?);
    let bytes = read_all(alloc, &mut src, 1_048_576)?;
    assert_eq!(rt; bytes.as_slice(), [4, 5].as_slice());
    Ok(())
}

#[test]
fn a_fault_or_too_many_bytes_end_the_reading(rt: HostRuntime) -> Result<(), Fail> {
    let alloc = rt.alloc();
    // 10,000 bytes and the end take four calls.
    for (most, fail, want) in [
        (10_000, 1, ReadAllFault::Read),
        (10_000, 3, ReadAllFault::Read),
        (10_000, 4, ReadAllFault::Read),
        (9_999, 5, ReadAllFault::Large),
        (0, 5, ReadAllFault::Large),
    ] {
        let mut src = MemSource::new(vec![in alloc; 7; 10_000]?, [fail].to_vec(alloc)?);
        let got = read_all(alloc, &mut src, most);
        assert!(rt;
            matches!(got, Err(fault) if fault == want),
            "most {most}, fail {fail}"
        );
        let faults = if want == ReadAllFault::Read { 1 } else { 0 };
        assert_eq!(rt; src.faults(), faults);
    }

    // Nothing is read on after a fault: the rest is still there.
    let mut src = MemSource::new(vec![in alloc; 7; 10_000]?, [2].to_vec(alloc)?);
    assert!(rt; read_all(alloc, &mut src, 10_000).is_err());
    assert_eq!(rt; read_all(alloc, &mut src, 10_000)?.len(), 10_000 - 4096);
    Ok(())
}

#[test]
fn a_sink_takes_what_it_has_room_for(rt: HostRuntime) -> Result<(), Fail> {
    let alloc = rt.alloc();
    let mut sink = MemSink::new(alloc, 4, Vec::new(alloc))?;
    assert!(rt; write_all(&mut sink, b"abc").is_ok());
    assert!(rt; write_all(&mut sink, b"").is_ok());
    assert_eq!(rt; sink.contents(), b"abc".as_slice());
    assert!(rt; write_all(&mut sink, b"def").is_err());
    assert_eq!(rt; sink.contents(), b"abcd".as_slice());
    assert_eq!(rt; sink.faults(), 1);

    let mut sink = MemSink::new(alloc, 100, [2].to_vec(alloc)?)?;
    assert!(rt; write_all(&mut sink, b"abc").is_ok());
    assert!(rt; write_all(&mut sink, b"def").is_err());
    assert!(rt; write_all(&mut sink, b"ghi").is_ok());
    assert_eq!(rt; sink.contents(), b"abcghi".as_slice());
    assert_eq!(rt; sink.faults(), 1);

    assert!(rt; write_all(&mut CleanSink::new(), b"abc").is_ok());
    OpenGate.at(Slot::new(1), Place::BeforeTurn);
    Ok(())
}

// What a caller knows of the bytes that a reader of std tells.
fn read_back_by_std(alloc: Global, bytes: Vec<u8>) -> Result<Vec<u8>, ReadAllFault>
    ensures { IfOk result (λ v. v.items ≡ bytes.items) }
{
    let mut src = StdSource::new(Cursor::new(bytes));
    read_all(alloc, &mut src, 1000)
}

// Gives one byte a call and takes up to two, and at the call of number `stop` has a fault of this kind, or moves none.
#[derive(Drop)]
struct Slow {
    bytes: Vec<u8>,
    calls: u8,
    stop: u8,
    kind: Option<ErrorKind>,
}

impl Slow {
    // Whether this call is to stop, and then with what.
    fn stopped(&mut self) -> Option<std::io::Result<usize>>
        ensures { IfSome result (λ answer. IfOk answer (λ n. n ≡ 0)) }
    {
        self.calls = self.calls.saturating_add(1);
        if self.calls != self.stop {
            return None;
        }
        match self.kind {
            Some(kind) => Some(Err(Error::from(kind))),
            None => Some(Ok(0)),
        }
    }
}

impl Read for Slow {
    fn read(&mut self, buf: &mut [u8]) -> std::io::Result<usize> {
        if let Some(answer) = self.stopped() {
            return answer;
        }
        match (buf.first_mut(), self.bytes.pop()) {
            (Some(place), Some(byte)) => {
                *place = byte;
                Ok(1)
            }
            _ => Ok(0),
        }
    }
}

impl Write for Slow {
    fn write(&mut self, buf: &[u8]) -> std::io::Result<usize> {
        if let Some(answer) = self.stopped() {
            return answer;
        }
        let piece = &buf[..buf.len().min(2)];
        match self.bytes.extend_from_slice(piece) {
            Ok(()) => Ok(piece.len()),
            Err(_) => Err(Error::from(ErrorKind::OutOfMemory)),
        }
    }

    fn flush(&mut self) -> std::io::Result<()> {
        Ok(())
    }
}

#[test]
fn a_reader_and_a_writer_of_std_are_adapted(rt: HostRuntime) -> Result<(), Fail> {
    let alloc = rt.alloc();
    let bytes = read_back_by_std(alloc, [1, 2, 3].to_vec(alloc)?)?;
    assert_eq!(rt; bytes.as_slice(), [1, 2, 3].as_slice());

    let mut out = Vec::new(alloc);
    assert!(rt; write_all(&mut StdSink::new(&mut out), b"abc").is_ok());
    assert_eq!(rt; out.as_slice(), b"abc".as_slice());

    // Each error of the reader is a fault, also an interruption; a call that gives nothing is the end.
    for (stop, kind, want) in [
        (0, None, Ok(3)),
        (3, Some(ErrorKind::Other), Err(ReadAllFault::Read)),
        (3, Some(ErrorKind::Interrupted), Err(ReadAllFault::Read)),
        (3, None, Ok(2)),
    ] {
        let mut reader = Slow {
            bytes: [3, 2, 1].to_vec(alloc)?,
            calls: 0,
            stop,
            kind,
        };
        let got = read_all(alloc, &mut StdSource::new(&mut reader), 3);
        assert!(rt; got.map(|bytes| bytes.len()) == want, "stop {stop}");
    }

    // A short write is no fault. Each error is one, also an interruption, and so is a call that takes nothing.
    for (stop, kind, is_whole) in [
        (0, None, true),
        (2, Some(ErrorKind::Other), false),
        (2, Some(ErrorKind::Interrupted), false),
        (2, None, false),
    ] {
        let mut writer = Slow {
            bytes: Vec::new(alloc),
            calls: 0,
            stop,
            kind,
        };
        let got = write_all(&mut StdSink::new(&mut writer), b"abcde");
        assert!(rt; got.is_ok() == is_whole, "stop {stop}");
        let want: &[u8] = if is_whole { b"abcde" } else { b"ab" };
        assert_eq!(rt; writer.bytes.as_slice(), want);
    }
    Ok(())
}

// Takes up to four bytes of each piece, and tells the pieces.
#[derive(Drop)]
struct Pieces {
    alloc: Global,
    pieces: Vec<Vec<u8>>,
    faults: u64,
    ghost in_range: { faults < 2 ^ 64 },
}

impl Sink for Pieces {
    ghost held = { λ _. None };

    ghost pieces = { λ s. Some (map vec_items s.pieces.items) };

    ghost faults = { λ s. s.faults };

    fn write(&mut self, piece: &[u8]) -> Result<usize, WriteFailed> {
        if let Ok(kept) = piece.to_vec(self.alloc) {
            if self.pieces.push(kept).is_ok() {
                return Ok(piece.len().min(4));
            }
        }
        self.faults = self.faults.saturating_add(1);
        Err(WriteFailed)
    }
}

#[test]
fn each_piece_is_the_rest(rt: HostRuntime) -> Result<(), Fail> {
    let alloc = rt.alloc();
    let mut sink = Pieces {
        alloc,
        pieces: Vec::new(alloc),
        faults: 0,
    };
    assert!(rt; write_all(&mut sink, b"hello\n").is_ok());
    assert!(rt; write_all(&mut sink, b"").is_ok());
    let want: [&[u8]; 2] = [b"hello\n", b"o\n"];
    assert_eq!(rt; sink.pieces.len(), want.len());
    for (piece, wanted) in sink.pieces.iter().zip(want) {
        assert_eq!(rt; piece.as_slice(), wanted);
    }
    Ok(())
}

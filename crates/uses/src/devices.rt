//! Of `hms_io`: sources, sinks and shelves in memory, over readers and writers of std, and over
//! files.

use hms_io::{
    DirShelf, Failed, FileError, FillError, MAX_LIMIT, MemShelf, MemSink, MemSource, Shelf, Sink,
    Source, StdSink, StdSource, fill, put_all, take_file,
};
use std::alloc::Global;
use std::io::{ErrorKind, Read, Write};
use std::{fs, io};

const TEXT: &[u8] = b"GET /a HTTP/1.1";

// The text is read byte by byte, in 15 calls, and call 15 gives the end.
struct Filling<'a> {
    limit: usize,
    fails: &'a [u64],
    wanted: Result<&'a [u8], FillError>,
}

const FILLINGS: [Filling<'static>; 6] = [
    Filling {
        limit: 15,
        fails: &[],
        wanted: Ok(TEXT),
    },
    Filling {
        limit: 14,
        fails: &[],
        wanted: Err(FillError::TooLong),
    },
    Filling {
        limit: 100,
        fails: &[0],
        wanted: Err(FillError::Failed),
    },
    Filling {
        limit: 100,
        fails: &[14],
        wanted: Err(FillError::Failed),
    },
    Filling {
        limit: 100,
        fails: &[15],
        wanted: Err(FillError::Failed),
    },
    // No call comes after the end.
    Filling {
        limit: 100,
        fails: &[16],
        wanted: Ok(TEXT),
    },
];

// Whether the source gives the text, or why it doesn't.
fn fills<S: Source>(
    alloc: Global,
    source: &mut S,
    limit: usize,
    wanted: Result<&[u8], FillError>,
) -> bool {
    match fill(alloc, source, limit.min(MAX_LIMIT)) {
        Ok(text) => wanted == Ok(text.bytes()),
        Err(error) => wanted == Err(error),
    }
}

fn is_filled(alloc: Global, row: &Filling<'_>) -> bool {
    match MemSource::new(alloc, TEXT, 1, row.fails) {
        Ok(mut source) => fills(alloc, &mut source, row.limit, row.wanted),
        Err(_) => false,
    }
}

// What is written goes into room for 20 bytes, two bytes a call.
struct Putting<'a> {
    text: &'a [u8],
    fails: &'a [u64],
    wanted: Result<(), Failed>,
    taken: &'a [u8],
}

const PUTTINGS: [Putting<'static>; 4] = [
    Putting {
        text: TEXT,
        fails: &[],
        wanted: Ok(()),
        taken: TEXT,
    },
    Putting {
        text: TEXT,
        fails: &[7],
        wanted: Err(Failed),
        taken: b"GET /a HTTP/1.",
    },
    // No call comes after the last byte.
    Putting {
        text: TEXT,
        fails: &[8],
        wanted: Ok(()),
        taken: TEXT,
    },
    Putting {
        text: b"GET /a HTTP/1.1\r\nHost: a",
        fails: &[],
        wanted: Err(Failed),
        taken: b"GET /a HTTP/1.1\r\nHos",
    },
];

fn is_put(alloc: Global, row: &Putting<'_>) -> bool {
    let Ok(mut sink) = MemSink::new(alloc, 20, 2, row.fails) else {
        return false;
    };
    put_all(&mut sink, row.text) == row.wanted && sink.taken() == row.taken
}

#[test]
fn a_text_is_read_from_memory_and_written_to_it_or_a_call_fails(rt: HostRuntime) {
    for row in &FILLINGS {
        assert!(rt; is_filled(rt.alloc(), row));
    }
    for row in &PUTTINGS {
        assert!(rt; is_put(rt.alloc(), row));
    }
}

// A file that is asked for, whole.
struct Taking<'a> {
    name: &'a str,
    limit: usize,
    wanted: Result<&'a [u8], FileError>,
}

// The calls 0 and 5 fail.
const TAKINGS: [Taking<'static>; 6] = [
    Taking {
        name: "a",
        limit: 15,
        wanted: Err(FileError::Failed),
    },
    Taking {
        name: "a",
        limit: 15,
        wanted: Ok(TEXT),
    },
    Taking {
        name: "empty",
        limit: 0,
        wanted: Ok(b""),
    },
    Taking {
        name: "b",
        limit: 15,
        wanted: Err(FileError::Missing),
    },
    Taking {
        name: "a",
        limit: 14,
        wanted: Err(FileError::TooLong),
    },
    Taking {
        name: "b",
        limit: 15,
        wanted: Err(FileError::Failed),
    },
];

fn is_taken<F: Shelf>(alloc: Global, shelf: &mut F, row: &Taking<'_>) -> bool {
    match take_file(alloc, shelf, row.name, row.limit.min(MAX_LIMIT)) {
        Ok(text) => row.wanted == Ok(text.bytes()),
        Err(error) => row.wanted == Err(error),
    }
}

fn are_taken<F: Shelf>(alloc: Global, shelf: &mut F, rows: &[Taking<'_>]) -> bool {
    for row in rows {
        if !is_taken(alloc, shelf, row) {
            return false;
        }
    }
    true
}

fn is_shelf_right(alloc: Global) -> bool {
    match MemShelf::new(alloc, &[0, 5]) {
        Ok(mut shelf) => {
            shelf.put("a", b"an earlier file of that name").is_ok()
                && shelf.put("empty", b"").is_ok()
                && shelf.put("a", TEXT).is_ok()
                && are_taken(alloc, &mut shelf, &TAKINGS)
        }
        Err(_) => false,
    }
}

// A file of the folder. What other names give is a case of cases/.
const FILES: [Taking<'static>; 4] = [
    Taking {
        name: "taken",
        limit: 15,
        wanted: Ok(TEXT),
    },
    Taking {
        name: "taken",
        limit: 14,
        wanted: Err(FileError::TooLong),
    },
    Taking {
        name: "taken ",
        limit: 15,
        wanted: Err(FileError::Missing),
    },
    // No file has such a name.
    Taking {
        name: "taken\0",
        limit: 15,
        wanted: Err(FileError::Failed),
    },
];

#[test]
fn a_file_is_taken_whole_or_not_at_all(rt: HostRuntime) {
    let _ = fs::write(&rt, "taken", TEXT);
    assert!(rt; is_shelf_right(rt.alloc()));
    assert!(rt; are_taken(rt.alloc(), &mut DirShelf::new(&rt), &FILES));
    let _ = fs::remove_file(&rt, "taken");
}

// What a call of a reader or a writer does: it gives or takes at most so many bytes, or fails.
#[derive(Clone, Copy)]
enum Turn {
    Moves(usize),
    Fails(ErrorKind),
    // It takes two bytes, and the flush after it fails.
    FailsToFlush(ErrorKind),
}

// Makes one turn a call, and is at its end after them.
#[derive(Drop)]
struct TurnReader<'a> {
    turns: &'a [Turn],
}

impl<'a> Read for TurnReader<'a> {
    fn read(&mut self, buf: &mut [u8]) -> io::Result<usize> {
        let Some((turn, later)) = self.turns.split_first() else {
            return Ok(0);
        };
        self.turns = later;
        match *turn {
            Turn::Moves(most) => {
                let count = most.min(buf.len());
                buf[..count].fill(b'x');
                Ok(count)
            }
            Turn::Fails(kind) | Turn::FailsToFlush(kind) => Err(io::Error::from(kind)),
        }
    }
}

struct Reading<'a> {
    turns: &'a [Turn],
    wanted: Result<&'a [u8], FillError>,
}

const READINGS: [Reading<'static>; 4] = [
    Reading {
        turns: &[Turn::Moves(1), Turn::Moves(9)],
        wanted: Ok(b"xxxxxxxxxx"),
    },
    // A reader that fails after its end isn't asked again.
    Reading {
        turns: &[
            Turn::Moves(2),
            Turn::Moves(0),
            Turn::Fails(ErrorKind::Other),
        ],
        wanted: Ok(b"xx"),
    },
    Reading {
        turns: &[Turn::Moves(2), Turn::Fails(ErrorKind::Other)],
        wanted: Err(FillError::Failed),
    },
    // An interrupted call isn't made again.
    Reading {
        turns: &[Turn::Fails(ErrorKind::Interrupted), Turn::Moves(2)],
        wanted: Err(FillError::Failed),
    },
];

#[test]
fn a_source_over_a_reader_gives_its_bytes_and_its_faults(rt: HostRuntime) {
    for row in &READINGS {
        let mut source = StdSource::new(TurnReader { turns: row.turns });
        assert!(rt; fills(rt.alloc(), &mut source, 15, row.wanted));
    }
}

// Makes the same turn at each call, and counts the flushes.
#[derive(Drop)]
struct TurnWriter<'a> {
    turn: Turn,
    flushes: &'a mut u8,
}

impl<'a> Write for TurnWriter<'a> {
    fn write(&mut self, buf: &[u8]) -> io::Result<usize> {
        match self.turn {
            Turn::Moves(most) => Ok(most.min(buf.len())),
            Turn::Fails(kind) => Err(io::Error::from(kind)),
            Turn::FailsToFlush(_) => Ok(buf.len().min(2)),
        }
    }

    fn flush(&mut self) -> io::Result<()> {
        *self.flushes = self.flushes.saturating_add(1);
        match self.turn {
            Turn::FailsToFlush(kind) => Err(io::Error::from(kind)),
            _ => Ok(()),
        }
    }
}

// The answer to each of two writes of three bytes, and how many flushes they make in all.
struct Writing {
    turn: Turn,
    wanted: Result<usize, Failed>,
    flushes: u8,
}

const WRITINGS: [Writing; 4] = [
    Writing {
        turn: Turn::Moves(2),
        wanted: Ok(2),
        flushes: 2,
    },
    Writing {
        turn: Turn::Moves(0),
        wanted: Err(Failed),
        flushes: 0,
    },
    Writing {
        turn: Turn::Fails(ErrorKind::Interrupted),
        wanted: Err(Failed),
        flushes: 0,
    },
    // After bytes whose flush failed nothing is written.
    Writing {
        turn: Turn::FailsToFlush(ErrorKind::Interrupted),
        wanted: Err(Failed),
        flushes: 1,
    },
];

fn is_written(row: &Writing) -> bool {
    let mut flushes = 0;
    let mut sink = StdSink::new(TurnWriter {
        turn: row.turn,
        flushes: &mut flushes,
    });
    let first = sink.write(b"abc");
    let second = sink.write(b"abc");
    first == row.wanted && second == row.wanted && flushes == row.flushes
}

fn is_slice_filled() -> bool {
    let mut room = [0u8; 15];
    let mut sink = StdSink::new(room.as_mut_slice());
    let first = put_all(&mut sink, TEXT).is_ok();
    let second = put_all(&mut sink, b"more").is_err();
    first && second && room.as_slice() == TEXT
}

#[test]
fn a_sink_over_a_writer_flushes_each_write_and_fails_where_it_does(rt: HostRuntime) {
    for row in &WRITINGS {
        assert!(rt; is_written(row));
    }
    assert!(rt; is_slice_filled());
}

// The program over devices in memory that give and take in pieces, and whose calls fail. What a
// user sees of it is a case of cases/.

use hms_io::{MemShelf, MemSink, MemSource, Status};
use program::run;
use sfv_text::Memory;
use std::alloc::{AllocError, Global};

// The devices of a run, dropped by one call.
struct Devices {
    shelf: MemShelf,
    source: MemSource,
    sink: MemSink,
}

impl Drop for Devices {
    fn drop(self) {
        let Devices {
            shelf: _,
            source: _,
            sink: _,
        } = self;
    }
}

// Calls of the shelf, the source and the sink that fail, and what the run comes to.
struct Run {
    words: &'static [&'static str],
    shelf: &'static [u64],
    source: &'static [u64],
    sink: &'static [u64],
    status: Status,
    taken: &'static [u8],
}

// Runs by the configuration `c`, over an input that is the file `o` too. How many bytes a read
// gives at most, for how many there is room in the output, and how many a write takes at most.
struct Setting {
    conf: &'static [u8],
    input: &'static [u8],
    piece: usize,
    room: usize,
    taken: usize,
    runs: &'static [Run],
}

fn devices_of(alloc: Global, setting: &Setting, row: &Run) -> Result<Devices, Memory> {
    let source = MemSource::new(alloc, setting.input, setting.piece.max(1), row.source)?;
    let sink = MemSink::new(alloc, setting.room, setting.taken.max(1), row.sink)?;
    let mut shelf = MemShelf::new(alloc, row.shelf)?;
    shelf.put("c", setting.conf)?;
    shelf.put("o", setting.input)?;
    Ok(Devices {
        shelf,
        source,
        sink,
    })
}

fn arguments_of(alloc: Global, words: &[&str]) -> Result<Vec<String>, AllocError> {
    let mut all = Vec::new(alloc);
    for word in words {
        all.push(String::from_str(alloc, *word)?)?;
    }
    Ok(all)
}

fn status_of(alloc: Global, arguments: &[String], devices: &mut Devices) -> Status {
    let ended = run(
        alloc,
        arguments,
        &mut devices.shelf,
        &mut devices.source,
        &mut devices.sink,
    );
    ended.status
}

// The status that the words come to; None without memory for them.
fn ends(alloc: Global, words: &[&str], devices: &mut Devices) -> Option<Status> {
    match arguments_of(alloc, words) {
        Ok(arguments) => Some(status_of(alloc, arguments.as_slice(), devices)),
        Err(_) => None,
    }
}

fn has_taken(sink: &MemSink, bytes: &[u8]) -> bool {
    sink.taken() == bytes
}

// Whether the run comes to the row's status and output.
fn ends_so(alloc: Global, devices: &mut Devices, row: &Run) -> bool {
    ends(alloc, row.words, devices) == Some(row.status) && has_taken(&devices.sink, row.taken)
}

fn is_run(alloc: Global, setting: &Setting, row: &Run) -> bool {
    match devices_of(alloc, setting, row) {
        Ok(mut devices) => ends_so(alloc, &mut devices, row),
        Err(_) => false,
    }
}

// The key of RFC 9421 appendix B.1.5.
const CONF: &[u8] = b"[keys]\n\
\"test-shared-secret\" = \"uzvJfB4u3N0Jy4T7NZ75MDVcr8zSTInedJtkgcu46YW4XByzNJjxBdtjUkdJPBtbmHhI\
Di6pcl8jsasjlTMtDQ==\"\n";

// The signed request of 344 bytes.
const SIGNED: &[u8] = b"POST /foo?param=Value&Pet=dog HTTP/1.1\r\n\
Host: example.com\r\n\
Date: Tue, 20 Apr 2021 02:07:55 GMT\r\n\
Content-Type: application/json\r\n\
Content-Length: 18\r\n\
Signature-Input: sig-b25=(\"date\" \"@authority\" \"content-type\")\
;created=1618884473;keyid=\"test-shared-secret\"\r\n\
Signature: sig-b25=:pxcQw6G3AjtMBQjwo8XzkZf/bws5LelbaMk5rGIGtE8=:\r\n\
\r\n{\"hello\": \"world\"}";

const VERIFY: &[&str] = &["verify", "--conf", "c", "--now", "1618884473"];

const BASE: &[&str] = &["base", r#"("date")"#];

const EXPLAIN: &[&str] = &["explain", "--label", "sig-b25", "--other", "o"];

const OVER_MESSAGE: [Run; 26] = [
    Run {
        words: VERIFY,
        shelf: &[0],
        source: &[],
        sink: &[],
        status: Status::ReadFault,
        taken: b"",
    },
    Run {
        words: VERIFY,
        shelf: &[],
        source: &[0],
        sink: &[],
        status: Status::ReadFault,
        taken: b"",
    },
    Run {
        words: VERIFY,
        shelf: &[],
        source: &[1],
        sink: &[],
        status: Status::ReadFault,
        taken: b"",
    },
    Run {
        words: VERIFY,
        shelf: &[],
        source: &[2],
        sink: &[],
        status: Status::ReadFault,
        taken: b"",
    },
    Run {
        words: VERIFY,
        shelf: &[],
        source: &[3],
        sink: &[],
        status: Status::ReadFault,
        taken: b"",
    },
    Run {
        words: VERIFY,
        shelf: &[],
        source: &[4],
        sink: &[],
        status: Status::ReadFault,
        taken: b"",
    },
    Run {
        words: VERIFY,
        shelf: &[],
        source: &[5],
        sink: &[],
        status: Status::ReadFault,
        taken: b"",
    },
    Run {
        words: VERIFY,
        shelf: &[],
        source: &[6],
        sink: &[],
        status: Status::ReadFault,
        taken: b"",
    },
    Run {
        words: VERIFY,
        shelf: &[],
        source: &[7],
        sink: &[],
        status: Status::ReadFault,
        taken: b"",
    },
    Run {
        words: VERIFY,
        shelf: &[],
        source: &[],
        sink: &[0],
        status: Status::WriteFault,
        taken: b"",
    },
    Run {
        words: VERIFY,
        shelf: &[],
        source: &[],
        sink: &[1],
        status: Status::WriteFault,
        taken: b"sig",
    },
    Run {
        words: VERIFY,
        shelf: &[],
        source: &[],
        sink: &[2],
        status: Status::WriteFault,
        taken: b"sig-b2",
    },
    Run {
        words: VERIFY,
        shelf: &[],
        source: &[],
        sink: &[3],
        status: Status::WriteFault,
        taken: b"sig-b25 o",
    },
    // no call comes after these
    Run {
        words: VERIFY,
        shelf: &[1],
        source: &[8],
        sink: &[4],
        status: Status::Done,
        taken: b"sig-b25 ok\n",
    },
    // no file is named
    Run {
        words: BASE,
        shelf: &[0],
        source: &[3],
        sink: &[],
        status: Status::ReadFault,
        taken: b"",
    },
    Run {
        words: BASE,
        shelf: &[],
        source: &[],
        sink: &[1],
        status: Status::WriteFault,
        taken: b"\"da",
    },
    // the sink is full
    Run {
        words: BASE,
        shelf: &[0],
        source: &[8],
        sink: &[],
        status: Status::WriteFault,
        taken: b"\"date\": Tue, 20 Apr 2021 02:07:55 GMT\n\"@signature-",
    },
    // nothing is read
    Run {
        words: &["base"],
        shelf: &[0],
        source: &[0],
        sink: &[],
        status: Status::BadArguments,
        taken: b"refused words\n",
    },
    Run {
        words: &["base", "(", "--conf", "d"],
        shelf: &[1],
        source: &[0],
        sink: &[],
        status: Status::FileMissing,
        taken: b"refused conf missing\n",
    },
    // the second file is asked for, and no input is read
    Run {
        words: &["base", "(", "--conf", "c", "--request", "d"],
        shelf: &[1],
        source: &[0],
        sink: &[],
        status: Status::ReadFault,
        taken: b"",
    },
    Run {
        words: &["base", "(", "--conf", "c", "--request", "d"],
        shelf: &[2],
        source: &[0],
        sink: &[],
        status: Status::FileMissing,
        taken: b"refused request missing\n",
    },
    // the other record is asked for, and then the input
    Run {
        words: EXPLAIN,
        shelf: &[0],
        source: &[],
        sink: &[],
        status: Status::ReadFault,
        taken: b"",
    },
    Run {
        words: EXPLAIN,
        shelf: &[1],
        source: &[3],
        sink: &[],
        status: Status::ReadFault,
        taken: b"",
    },
    Run {
        words: EXPLAIN,
        shelf: &[1],
        source: &[8],
        sink: &[3],
        status: Status::WriteFault,
        taken: b"explained",
    },
    // the sink is full
    Run {
        words: EXPLAIN,
        shelf: &[1],
        source: &[8],
        sink: &[],
        status: Status::WriteFault,
        taken: b"explained 12 12\ncase h 0 host\npad h 0 - -\ncase h 1",
    },
    // no input is read
    Run {
        words: &["explain", "--label", "sig-b25", "--other", "d"],
        shelf: &[1],
        source: &[0],
        sink: &[],
        status: Status::FileMissing,
        taken: b"refused other missing\n",
    },
];

// Its items end at the bytes 21, 70, 84, 89, 121 and 174, and it has 178.
const STREAM: &[u8] = b"hms-recording 1\n\
at 5\n\
request 37\n\
GET / HTTP/1.1\r\nHost: example.com\r\n\r\n\n\
request 3\nabc\n\
at 6\n\
related 20\n\
HEAD /a HTTP/1.1\r\n\r\n\n\
response 40\n\
HTTP/1.1 200 OK\r\nContent-Length: 100\r\n\r\n\n\
end\n";

const STREAM_CONF: &[u8] = b"[keys]\nk = \"AAAA\"\n\
[sign]\nlabel = \"a\"\nkeyid = \"k\"\n\
[gateway]\n";

const GATEWAY: &[&str] = &["gateway", "--conf", "c"];

const ONE_RECORD: &[u8] = b"stop 0 - rule 1 input-absent\n";

const TWO_RECORDS: &[u8] = b"stop 0 - rule 1 input-absent\nbad 1 truncated 3\n";

const RECORDS: &[u8] = b"stop 0 - rule 1 input-absent\n\
bad 1 truncated 3\n\
stop 2 - rule 1 input-absent\n";

const WHOLE_STREAM: [Run; 1] = [Run {
    words: GATEWAY,
    shelf: &[],
    source: &[],
    sink: &[],
    status: Status::NotOk,
    taken: RECORDS,
}];

// The records so far are written.
const OVER_STREAM: [Run; 12] = [
    Run {
        words: GATEWAY,
        shelf: &[0],
        source: &[],
        sink: &[],
        status: Status::ReadFault,
        taken: b"",
    },
    Run {
        words: GATEWAY,
        shelf: &[],
        source: &[0],
        sink: &[],
        status: Status::ReadFault,
        taken: b"",
    },
    Run {
        words: GATEWAY,
        shelf: &[],
        source: &[6],
        sink: &[],
        status: Status::ReadFault,
        taken: b"",
    },
    Run {
        words: GATEWAY,
        shelf: &[],
        source: &[7],
        sink: &[],
        status: Status::ReadFault,
        taken: ONE_RECORD,
    },
    Run {
        words: GATEWAY,
        shelf: &[],
        source: &[8],
        sink: &[],
        status: Status::ReadFault,
        taken: ONE_RECORD,
    },
    Run {
        words: GATEWAY,
        shelf: &[],
        source: &[9],
        sink: &[],
        status: Status::ReadFault,
        taken: TWO_RECORDS,
    },
    Run {
        words: GATEWAY,
        shelf: &[],
        source: &[18],
        sink: &[],
        status: Status::ReadFault,
        taken: RECORDS,
    },
    Run {
        words: GATEWAY,
        shelf: &[],
        source: &[19],
        sink: &[],
        status: Status::NotOk,
        taken: RECORDS,
    },
    Run {
        words: GATEWAY,
        shelf: &[],
        source: &[],
        sink: &[0],
        status: Status::WriteFault,
        taken: b"",
    },
    Run {
        words: GATEWAY,
        shelf: &[],
        source: &[],
        sink: &[2],
        status: Status::WriteFault,
        taken: b"stop 0 - rule 1 inpu",
    },
    Run {
        words: GATEWAY,
        shelf: &[],
        source: &[],
        sink: &[3],
        status: Status::WriteFault,
        taken: ONE_RECORD,
    },
    Run {
        words: GATEWAY,
        shelf: &[],
        source: &[],
        sink: &[4],
        status: Status::WriteFault,
        taken: b"stop 0 - rule 1 input-absent\nbad 1 trun",
    },
];

// The signed request comes in seven pieces and an end. The stream may come in any pieces.
const SETTINGS: [Setting; 9] = [
    Setting {
        conf: CONF,
        input: SIGNED,
        piece: 50,
        room: 50,
        taken: 3,
        runs: &OVER_MESSAGE,
    },
    Setting {
        conf: STREAM_CONF,
        input: STREAM,
        piece: 10,
        room: 1_000,
        taken: 10,
        runs: &OVER_STREAM,
    },
    Setting {
        conf: STREAM_CONF,
        input: STREAM,
        piece: 1,
        room: 1_000,
        taken: 10,
        runs: &WHOLE_STREAM,
    },
    Setting {
        conf: STREAM_CONF,
        input: STREAM,
        piece: 2,
        room: 1_000,
        taken: 10,
        runs: &WHOLE_STREAM,
    },
    Setting {
        conf: STREAM_CONF,
        input: STREAM,
        piece: 5,
        room: 1_000,
        taken: 10,
        runs: &WHOLE_STREAM,
    },
    Setting {
        conf: STREAM_CONF,
        input: STREAM,
        piece: 16,
        room: 1_000,
        taken: 10,
        runs: &WHOLE_STREAM,
    },
    Setting {
        conf: STREAM_CONF,
        input: STREAM,
        piece: 21,
        room: 1_000,
        taken: 10,
        runs: &WHOLE_STREAM,
    },
    Setting {
        conf: STREAM_CONF,
        input: STREAM,
        piece: 71,
        room: 1_000,
        taken: 10,
        runs: &WHOLE_STREAM,
    },
    Setting {
        conf: STREAM_CONF,
        input: STREAM,
        piece: 100,
        room: 1_000,
        taken: 10,
        runs: &WHOLE_STREAM,
    },
];

#[test]
fn a_run_ends_at_the_first_call_that_fails_in_any_pieces(rt: HostRuntime) {
    for setting in &SETTINGS {
        for (index, row) in setting.runs.iter().enumerate() {
            assert!(rt; is_run(rt.alloc(), setting, row), "at {index}");
        }
    }
}

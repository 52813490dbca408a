// Tests of recordings.

use hms_io::MemSource;
use recording::{
    Item, ItemBody, ItemFault, ItemReader, Recording, RecordingFault, Role, read_recording,
};
use std::alloc::Global;

struct Row {
    text: &'static [u8],
    // How many items are read, or why none are.
    read: Result<usize, RecordingFault>,
}

const ROWS: [Row; 37] = [
    Row {
        text: b"",
        read: Err(RecordingFault::Syntax(0)),
    },
    Row {
        text: b"hms-recording 1\nat 5\nend\n",
        read: Ok(1),
    },
    Row {
        text: b"hms-recording 1\nat 5\nat 4\nend\n",
        read: Err(RecordingFault::MomentFalls(21)),
    },
    Row {
        text: b"hms-recording 1\nat 5\nat 4\nrequest x",
        read: Err(RecordingFault::MomentFalls(21)),
    },
    Row {
        text: b"hms-recording 1\nat 01\n",
        read: Err(RecordingFault::Syntax(20)),
    },
    Row {
        text: b"hms-recording 1\nend\n",
        read: Err(RecordingFault::Syntax(16)),
    },
    Row {
        text: b"hms-recording 1\nat 5\nrequest 16777217\n",
        read: Err(RecordingFault::ItemTooLong(21)),
    },
    Row {
        text: b"hms-recording 1\nat 5\nscript 16777217\nx",
        read: Err(RecordingFault::ItemTooLong(21)),
    },
    Row {
        text: b"hms-recording 1\nat 5\nrequest 16777216\n",
        read: Err(RecordingFault::Syntax(38)),
    },
    Row {
        text: b"hms-recording 1\nat 5\nreq",
        read: Err(RecordingFault::Syntax(24)),
    },
    Row {
        text: b"hms-recording 1\nat 5\nend",
        read: Err(RecordingFault::Syntax(24)),
    },
    Row {
        text: b"hms-recording 1\nat 5\nend\nx",
        read: Err(RecordingFault::Syntax(25)),
    },
    Row {
        text: b"hms-recording 1\nat 5\nrequest 3\nabc\nend\n",
        read: Ok(2),
    },
    Row {
        text: b"hms-recording 1\nat 5\nrequest 3\nabcd\nend\n",
        read: Err(RecordingFault::Syntax(34)),
    },
    Row {
        text: b"hms-recording 1\nat 5\nrequest 16777217",
        read: Err(RecordingFault::Syntax(37)),
    },
    Row {
        text: b"hms-recording 1\nat 5\nrequest 16777217x\n",
        read: Err(RecordingFault::Syntax(37)),
    },
    Row {
        text: b"hms-recording 1\nat 5\nresponse 0\n\nend\n",
        read: Ok(2),
    },
    Row {
        text: b"hms-recording 1\nat 5\nrelated 1\n\n\nat 7\nend\n",
        read: Ok(3),
    },
    Row {
        text: b"hms-recording 1\nat 5\nscript 0\n\nend\n",
        read: Ok(2),
    },
    Row {
        text: b"hms-recording 1\nat 1234567890123456\n",
        read: Err(RecordingFault::Syntax(34)),
    },
    Row {
        text: b"hms-recording 1\nat 123456789012345\nend\n",
        read: Ok(1),
    },
    Row {
        text: b"hms-recording 1\nrequest 0\n\nend\n",
        read: Err(RecordingFault::Syntax(16)),
    },
    Row {
        text: b"hms-recording 2\n",
        read: Err(RecordingFault::Syntax(14)),
    },
    Row {
        text: b"hms-recording 1\nat 5\nreply",
        read: Err(RecordingFault::Syntax(23)),
    },
    Row {
        text: b"hms-recording 1\nat 5\nrel",
        read: Err(RecordingFault::Syntax(24)),
    },
    Row {
        text: b"hms-recording 1\nat 5\nres",
        read: Err(RecordingFault::Syntax(24)),
    },
    Row {
        text: b"hms-recording 1\nat 5\nr",
        read: Err(RecordingFault::Syntax(22)),
    },
    Row {
        text: b"hms-recording 1\nat 5\nrr",
        read: Err(RecordingFault::Syntax(22)),
    },
    Row {
        text: b"hms-recording 1\nat \n",
        read: Err(RecordingFault::Syntax(19)),
    },
    Row {
        text: b"hms-recording 1\nat 5\n\nend\n",
        read: Err(RecordingFault::Syntax(21)),
    },
    Row {
        text: b"hms-recording 1\nat 5 \n",
        read: Err(RecordingFault::Syntax(20)),
    },
    Row {
        text: b"hms-recording 1\nat 5\nat 4x",
        read: Err(RecordingFault::Syntax(25)),
    },
    Row {
        text: b"hms-recording 1\nat 5\nat 5\nend\n",
        read: Ok(2),
    },
    Row {
        text: b"hms-recording 1\nat 5\nrequest 5\nabc",
        read: Err(RecordingFault::Syntax(34)),
    },
    Row {
        text: b"hms-recording 1\nat 5\r\n",
        read: Err(RecordingFault::Syntax(20)),
    },
    Row {
        text: b"hms-recording 1\nat 0\nend\n",
        read: Ok(1),
    },
    Row {
        text: b"hms-recording 1\nat 00\n",
        read: Err(RecordingFault::Syntax(20)),
    },
];

fn is_read(alloc: Global, row: &Row) -> bool {
    match read_recording(alloc, row.text) {
        Ok(recording) => row.read == Ok(recording.items().count()),
        Err(fault) => row.read == Err(fault),
    }
}

// How many items come, of ten at most, or why no further one.
fn count_items(alloc: Global, source: &mut MemSource) -> Result<usize, ItemFault> {
    let mut reader = ItemReader::new(alloc);
    for count in 0..10 {
        if !reader.next(source)? {
            return Ok(count);
        }
    }
    Err(ItemFault::TooManyItems)
}

fn is_read_in_pieces(alloc: Global, row: &Row, piece: usize) -> bool {
    let Ok(mut source) = MemSource::new(alloc, row.text, piece.max(1), &[]) else {
        return false;
    };
    match count_items(alloc, &mut source) {
        Ok(count) => row.read == Ok(count),
        Err(ItemFault::Recording(fault)) => row.read == Err(fault),
        Err(_) => false,
    }
}

#[test]
fn recordings_are_read_whole_and_in_any_pieces(rt: HostRuntime) {
    for row in &ROWS {
        assert!(rt; is_read(rt.alloc(), row));
        for piece in 1..45 {
            assert!(rt; is_read_in_pieces(rt.alloc(), row, piece));
        }
    }
}

// Whether the item is the one at the index in PARTS, and at its place.
fn is_part(index: usize, item: &Item<'_>) -> bool {
    match (index, item.body) {
        (0, ItemBody::At(moment)) => item.offset == 16 && moment == 5,
        (1, ItemBody::Message(Role::Related, bytes)) => {
            item.offset == 21 && bytes == b"ab".as_slice()
        }
        (2, ItemBody::Message(Role::Response, bytes)) => {
            item.offset == 34 && bytes == b"cde".as_slice()
        }
        (3, ItemBody::Script(bytes)) => item.offset == 49 && bytes == b"f".as_slice(),
        _ => false,
    }
}

fn are_parts(recording: &Recording<'_>) -> bool {
    let mut count = 0_usize;
    for item in recording.items() {
        if !is_part(count, &item) {
            return false;
        }
        count = count.saturating_add(1);
    }
    count == 4
}

const PARTS: &[u8] = b"hms-recording 1\nat 5\nrelated 2\nab\nresponse 3\ncde\nscript 1\nf\nend\n";

fn has_parts(alloc: Global) -> bool {
    match read_recording(alloc, PARTS) {
        Ok(recording) => are_parts(&recording),
        Err(_) => false,
    }
}

#[test]
fn items_have_their_places(rt: HostRuntime) {
    assert!(rt; has_parts(rt.alloc()));
}

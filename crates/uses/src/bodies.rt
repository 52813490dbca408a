// Tests of msg_body and chunks.

use crate::heads::are_pieces;
use framing::{ChunksRead, ChunksView, Framing, read_chunks};
use msg_body::{Expect, MAX_MESSAGE_BYTES, MessageError, MessageRead, MessageView, read_message};
use msg_head::Side;
use std::alloc::Global;

// How a message is read, and how many bytes it has.
struct Message {
    used: usize,
    framing: Framing,
    content: &'static [u8],
    trailers: usize,
}

// A text, and the message that it begins with, or the error that comes.
struct Read {
    bytes: &'static [u8],
    expect: Expect,
    to_head: bool,
    read: Result<Message, MessageError>,
}

// What each framing reads (RFC 9112 section 6.3), and texts of the other kind than expected. No
// command knows that a response answers a HEAD request, or expects one kind of message. The second
// is the example of msg_body.
const READS: [Read; 9] = [
    Read {
        bytes: b"POST / HTTP/1.1\r\nContent-Length: 5\r\n\r\nhellox",
        expect: Expect::Any,
        to_head: false,
        read: Ok(Message {
            used: 43,
            framing: Framing::Length,
            content: b"hello",
            trailers: 0,
        }),
    },
    Read {
        bytes: b"POST / HTTP/1.1\r\nTransfer-Encoding: Chunked\r\n\r\n\
            5 \r\nhello\r\n00e;n=v\r\n, chunked text\r\n0;\r\nA: b\r\n c\r\nD:\r\n\r\nx",
        expect: Expect::Any,
        to_head: false,
        read: Ok(Message {
            used: 103,
            framing: Framing::Chunked,
            content: b"hello, chunked text",
            trailers: 2,
        }),
    },
    Read {
        bytes: b"HTTP/1.1 200 OK\r\n\r\nto the\r\n\r\nend",
        expect: Expect::Any,
        to_head: false,
        read: Ok(Message {
            used: 32,
            framing: Framing::ToEnd,
            content: b"to the\r\n\r\nend",
            trailers: 0,
        }),
    },
    Read {
        bytes: b"HTTP/1.1 200 OK\r\nContent-Length: 5\r\n\r\nhello",
        expect: Expect::Any,
        to_head: true,
        read: Ok(Message {
            used: 38,
            framing: Framing::None,
            content: b"",
            trailers: 0,
        }),
    },
    Read {
        bytes: b"HTTP/1.1 200 OK\r\nTransfer-Encoding: chunked\r\n\r\n",
        expect: Expect::Any,
        to_head: true,
        read: Ok(Message {
            used: 47,
            framing: Framing::None,
            content: b"",
            trailers: 0,
        }),
    },
    Read {
        bytes: b"HTTP/1.1 204\r\n\r\n",
        expect: Expect::Request,
        to_head: false,
        read: Err(MessageError::BadStart),
    },
    Read {
        bytes: b"POST / HTTP/1.1\r\nContent-Length: 0\r\n\r\n",
        expect: Expect::Response,
        to_head: false,
        read: Err(MessageError::BadStart),
    },
    Read {
        bytes: b"HTTP/1.1 204\r\nA\r\n\r\n",
        expect: Expect::Request,
        to_head: false,
        read: Err(MessageError::BadLine(Side::Header, 0)),
    },
    Read {
        bytes: b"GET / HTTP/1.1\nA: b\r\n\r\n",
        expect: Expect::Response,
        to_head: false,
        read: Err(MessageError::NakedEnd(14)),
    },
];

// Whether the message is the row's.
fn is_message(view: &MessageView<'_>, used: usize, row: &Read) -> bool {
    match &row.read {
        Ok(wanted) => {
            used == wanted.used
                && view.framing() == wanted.framing
                && view.content_len() == wanted.content.len()
                && are_pieces(view.content_pieces(), wanted.content)
                && view.line_count(Side::Trailer) == wanted.trailers
        }
        Err(_) => false,
    }
}

fn is_fault(error: MessageError, row: &Read) -> bool {
    match &row.read {
        Ok(_) => false,
        Err(wanted) => error == *wanted,
    }
}

// Whether the text is read like this.
fn is_read(alloc: Global, row: &Read) -> bool {
    if row.bytes.len() > MAX_MESSAGE_BYTES {
        return false;
    }
    match read_message(alloc, row.bytes, row.expect, row.to_head) {
        Ok(MessageRead::Whole(view, used)) => is_message(&view, used, row),
        Ok(MessageRead::Partial) => false,
        Err(error) => is_fault(error, row),
    }
}

#[test]
fn each_framing_is_read_and_messages_of_the_other_kind_are_refused(rt: HostRuntime) {
    for row in &READS {
        assert!(rt; is_read(rt.alloc(), row));
    }
}

// Chunks, and what they hold.
struct Held {
    bytes: &'static [u8],
    used: usize,
    count: usize,
    content: &'static [u8],
}

const HELD: [Held; 2] = [
    Held {
        bytes: b"4;a=b\r\nWiki\r\n00C \r\npedia in\r\n\r\n\r\n0\r\n\r\n",
        used: 36,
        count: 2,
        content: b"Wikipedia in\r\n\r\n",
    },
    Held {
        bytes: b"0\r\n",
        used: 3,
        count: 0,
        content: b"",
    },
];

fn are_chunks(chunks: &ChunksView<'_>, row: &Held) -> bool {
    chunks.chunk_count() == row.count
        && chunks.content_len() == row.content.len()
        && chunks.is_empty() == row.content.is_empty()
        && are_pieces(chunks.pieces(), row.content)
}

fn is_held(row: &Held) -> bool {
    match read_chunks(row.bytes) {
        Ok(ChunksRead::Whole(chunks, used)) => used == row.used && are_chunks(&chunks, row),
        _ => false,
    }
}

// The example of chunks in framing.
#[test]
fn chunks_hold_content(rt: HostRuntime) {
    for row in &HELD {
        assert!(rt; is_held(row));
    }
}

// Tests of lists of fields.

ghost use Rattle.std.specs.Prelude.{◌≤◌, length};
ghost use Rattle.framing.specs.declared.chunk_limits.TheConstants.{MAX_CONTENT_BYTES};

use crate::given::{is_text, message};
use component_ids::{Scheme, Types};
use component_values::Context;
use field_lists::{FromFault, ToFault, from_message, to_message};
use list_texts::{FieldList, FieldsFault, print_fields, read_fields};
use std::alloc::Global;

// A request with a query that is empty, and a field.
const LIST: &[u8] = b"hms-fields 1\nfield 7 3\n:methodGET\nfield 7 5\n:schemehttps\n\
    field 5 3\n:path/p?\nfield 10 1\n:authorityh\nfield 4 1\ndatex\ncontent 0\n\nend\n";

// The same with the pseudo-header fields in their order.
const ORDERED: &[u8] = b"hms-fields 1\nfield 7 3\n:methodGET\nfield 7 5\n:schemehttps\n\
    field 10 1\n:authorityh\nfield 5 3\n:path/p?\nfield 4 1\ndatex\ncontent 0\n\nend\n";

const MESSAGE: &[u8] = b"GET /p? HTTP/1.1\r\nhost: h\r\ndate: x\r\n\r\n";

// The text of a list, and the message that it stands for, or why there is none; or why it isn't
// one.
struct Row {
    text: &'static [u8],
    read: Result<Result<&'static [u8], ToFault>, FieldsFault>,
}

const LISTS: [Row; 21] = [
    Row {
        text: LIST,
        read: Ok(Ok(MESSAGE)),
    },
    Row {
        text: b"hms-fields 1\nfield 7 3\n:status200\ncontent 0\n\nend\n",
        read: Ok(Ok(b"HTTP/1.1 200 \r\ntransfer-encoding: chunked\r\n\r\n0\r\n\r\n")),
    },
    Row {
        text: b"hms-fields 1\nfield 7 3\n:status304\nfield 14 2\ncontent-length18\n\
            content 0\n\nend\n",
        read: Ok(Ok(b"HTTP/1.1 304 \r\ncontent-length: 18\r\n\r\n")),
    },
    Row {
        text: b"hms-fields 1\nfield 7 3\n:status200\nfield 14 3\ncontent-length 02\n\
            content 2\nab\nend\n",
        read: Ok(Ok(b"HTTP/1.1 200 \r\ncontent-length:  02\r\n\r\nab")),
    },
    Row {
        text: b"hms-fields 1\nfield 7 3\n:status200\ncontent 17\n0123456789abcdefg\n\
            trailer 1 1\nxy\nend\n",
        read: Ok(Ok(
            b"HTTP/1.1 200 \r\ntransfer-encoding: chunked\r\n\r\n\
            11\r\n0123456789abcdefg\r\n0\r\nx: y\r\n\r\n",
        )),
    },
    Row {
        text: b"hms-fields 1\ncontent 0\n\nend\n",
        read: Ok(Err(ToFault::Pseudo)),
    },
    Row {
        text: b"hms-fields 1\nfield 7 3\n:methodGET\nfield 7 5\n:schemehttps\n\
            field 5 1\n:path/\nfield 5 1\n:path/\ncontent 0\n\nend\n",
        read: Ok(Err(ToFault::Pseudo)),
    },
    Row {
        text: b"hms-fields 1\nfield 7 7\n:methodCONNECT\nfield 7 5\n:schemehttps\n\
            field 5 1\n:path/\nfield 10 1\n:authorityh\ncontent 0\n\nend\n",
        read: Ok(Err(ToFault::Pseudo)),
    },
    Row {
        text: b"hms-fields 1\nfield 7 3\n:methodGET\nfield 7 5\n:schemeHttps\n\
            field 5 1\n:path/\nfield 10 1\n:authorityh\ncontent 0\n\nend\n",
        read: Ok(Err(ToFault::Pseudo)),
    },
    Row {
        text: b"hms-fields 1\nfield 7 3\n:methodGET\nfield 7 5\n:schemehttps\n\
            field 5 2\n:path/#\nfield 10 1\n:authorityh\ncontent 0\n\nend\n",
        read: Ok(Err(ToFault::Pseudo)),
    },
    Row {
        text: b"hms-fields 1\nfield 7 2\n:status20\ncontent 0\n\nend\n",
        read: Ok(Err(ToFault::Pseudo)),
    },
    Row {
        text: b"hms-fields 1\nfield 7 3\n:methodGET\nfield 7 4\n:schemehttp\n\
            field 5 1\n:path/\nfield 10 1\n:authorityh\ncontent 0\n\nend\n",
        read: Ok(Err(ToFault::SchemeOther)),
    },
    Row {
        text: b"hms-fields 1\nfield 7 3\n:methodGET\nfield 7 5\n:schemehttps\n\
            field 5 1\n:path/\nfield 10 1\n:authorityh\nfield 4 1\ndatex\nfield 4 1\nhosth\n\
            content 0\n\nend\n",
        read: Ok(Err(ToFault::BadField(5))),
    },
    Row {
        text: b"hms-fields 1\nfield 7 3\n:status200\nfield 7 3\n:status200\ncontent 0\n\nend\n",
        read: Ok(Err(ToFault::BadField(1))),
    },
    Row {
        text: b"hms-fields 1\nfield 7 3\n:status200\nfield 1 1\na\n\ncontent 0\n\nend\n",
        read: Ok(Err(ToFault::BadField(1))),
    },
    Row {
        text: b"hms-fields 1\nfield 7 3\n:status200\nfield 1 1\nax\ncontent 0\n\n\
            trailer 1 1\nax\ntrailer 1 1\nAx\nend\n",
        read: Ok(Err(ToFault::BadField(3))),
    },
    Row {
        text: b"hms-fields 1\nfield 7 3\n:status200\nfield 14 1\ncontent-length1\n\
            content 0\n\nend\n",
        read: Ok(Err(ToFault::BadLength)),
    },
    Row {
        text: b"hms-fields 1\nfield 7 3\n:status200\nfield 14 1\ncontent-length0\n\
            field 14 1\ncontent-length0\ncontent 0\n\nend\n",
        read: Ok(Err(ToFault::BadLength)),
    },
    Row {
        text: b"hms-fields 1\nfield 7 3\n:status204\ncontent 1\nx\nend\n",
        read: Ok(Err(ToFault::BodyRefused)),
    },
    Row {
        text: b"hms-fields 1\nfield 7 3\n:status200\nfield 14 1\ncontent-length0\n\
            content 0\n\ntrailer 1 1\nax\nend\n",
        read: Ok(Err(ToFault::BodyRefused)),
    },
    Row {
        text: b"hms-fields 1\ncontent 2\n\n\n\ntrailer 0 0\n\nend\n",
        read: Ok(Err(ToFault::Pseudo)),
    },
];

const REFUSED: [Row; 21] = [
    Row {
        text: b"",
        read: Err(FieldsFault::Syntax(0)),
    },
    Row {
        text: b"hms-fields 2\n",
        read: Err(FieldsFault::Syntax(11)),
    },
    Row {
        text: b"hms-fields 1\n",
        read: Err(FieldsFault::Syntax(13)),
    },
    Row {
        text: b"hms-fields 1\nend\n",
        read: Err(FieldsFault::Syntax(13)),
    },
    Row {
        text: b"hms-fields 1\nfi",
        read: Err(FieldsFault::Syntax(15)),
    },
    Row {
        text: b"hms-fields 1\ntrailer 0 0\n\n",
        read: Err(FieldsFault::Syntax(13)),
    },
    Row {
        text: b"hms-fields 1\nfield 01 0\n",
        read: Err(FieldsFault::Syntax(20)),
    },
    Row {
        text: b"hms-fields 1\nfield 1\n",
        read: Err(FieldsFault::Syntax(20)),
    },
    Row {
        text: b"hms-fields 1\nfield 1 2\nabcd",
        read: Err(FieldsFault::Syntax(26)),
    },
    Row {
        text: b"hms-fields 1\nfield 65537 0\n",
        read: Err(FieldsFault::TooLong(13)),
    },
    Row {
        text: b"hms-fields 1\nfield 0 65537\nend",
        read: Err(FieldsFault::TooLong(13)),
    },
    Row {
        text: b"hms-fields 1\nfield 65537 x",
        read: Err(FieldsFault::Syntax(25)),
    },
    Row {
        text: b"hms-fields 1\nfield 65537 0",
        read: Err(FieldsFault::Syntax(26)),
    },
    Row {
        text: b"hms-fields 1\nfield 65536 0\n",
        read: Err(FieldsFault::Syntax(27)),
    },
    Row {
        text: b"hms-fields 1\ncontent 8388609\n",
        read: Err(FieldsFault::TooLong(13)),
    },
    Row {
        text: b"hms-fields 1\ncontent 8388608\n",
        read: Err(FieldsFault::Syntax(29)),
    },
    Row {
        text: b"hms-fields 1\ncontent 0\n\nfield 0 0\n\n",
        read: Err(FieldsFault::Syntax(24)),
    },
    Row {
        text: b"hms-fields 1\ncontent 0\n\ntrailer 0 65537\n",
        read: Err(FieldsFault::TooLong(24)),
    },
    Row {
        text: b"hms-fields 1\ncontent 0\n\nend",
        read: Err(FieldsFault::Syntax(27)),
    },
    Row {
        text: b"hms-fields 1\ncontent 0\n\nend\nx",
        read: Err(FieldsFault::Syntax(28)),
    },
    Row {
        text: b"hms-fields 1\nfield 1000000000000000 0\n",
        read: Err(FieldsFault::Syntax(34)),
    },
];

fn is_message_of(alloc: Global, list: &FieldList, row: &Row) -> bool
    requires { length list.now.content ≤ MAX_CONTENT_BYTES }
{
    match to_message(alloc, list, Scheme::Https) {
        Ok(text) => row.read == Ok(Ok(text.bytes())),
        Err(fault) => row.read == Ok(Err(fault)),
    }
}

// A list that is read is printed as it was.
fn is_read(alloc: Global, row: &Row) -> bool {
    match read_fields(alloc, row.text) {
        Ok(list) => {
            is_text(print_fields(alloc, &list), row.text) && is_message_of(alloc, &list, row)
        }
        Err(fault) => row.read == Err(fault),
    }
}

#[test]
fn lists_are_read_and_printed_and_turned_into_messages(rt: HostRuntime) {
    for row in &LISTS {
        assert!(rt; is_read(rt.alloc(), row));
    }
}

#[test]
fn texts_that_are_no_lists_are_refused(rt: HostRuntime) {
    for row in &REFUSED {
        assert!(rt; is_read(rt.alloc(), row));
    }
}

struct Back {
    message: &'static [u8],
    // The list's text, or why there is none.
    list: Result<&'static [u8], FromFault>,
}

const BACK: [Back; 7] = [
    Back {
        message: MESSAGE,
        list: Ok(ORDERED),
    },
    Back {
        message: b"POST HTTP://u?q HTTP/1.1\r\nHost: v\r\nA:  x\r\n  y \r\n\
            Transfer-Encoding: chunked\r\nConnection: close\r\n\r\n2\r\nab\r\n0\r\nT: u\r\n\
            Upgrade: v\r\n\r\n",
        list: Ok(
            b"hms-fields 1\nfield 7 4\n:methodPOST\nfield 7 4\n:schemehttp\nfield 10 1\n\
            :authorityu\nfield 5 3\n:path/?q\nfield 1 3\nax y\ncontent 2\nab\ntrailer 1 1\ntu\n\
            end\n",
        ),
    },
    Back {
        message: b"HTTP/1.1 204 No Content\r\n\r\n",
        list: Ok(b"hms-fields 1\nfield 7 3\n:status204\ncontent 0\n\nend\n"),
    },
    Back {
        message: b"OPTIONS * HTTP/1.1\r\nHost: h\r\n\r\n",
        list: Err(FromFault::NoForm),
    },
    Back {
        message: b"CONNECT h:1 HTTP/1.1\r\nHost: h\r\n\r\n",
        list: Err(FromFault::NoForm),
    },
    Back {
        message: b"GET / HTTP/1.1\r\n\r\n",
        list: Err(FromFault::NoAuthority),
    },
    Back {
        message: b"GET / HTTP/1.1\r\nHost: u@h\r\n\r\n",
        list: Err(FromFault::NoAuthority),
    },
];

fn is_list_of(alloc: Global, context: &Context<'_, '_>, row: &Back) -> bool {
    match from_message(alloc, context) {
        Ok(list) => match row.list {
            Ok(text) => is_text(print_fields(alloc, &list), text),
            Err(_) => false,
        },
        Err(fault) => row.list == Err(fault),
    }
}

fn is_turned_back_by(alloc: Global, types: &Types, row: &Back) -> bool {
    match message(alloc, row.message) {
        Some(given) => {
            let context = Context::of_message(&given.view, Scheme::Https, types);
            is_list_of(alloc, &context, row)
        }
        None => false,
    }
}

fn is_turned_back(alloc: Global, row: &Back) -> bool {
    match Types::standard(alloc) {
        Ok(types) => is_turned_back_by(alloc, &types, row),
        Err(_) => false,
    }
}

#[test]
fn messages_are_turned_into_lists(rt: HostRuntime) {
    for row in &BACK {
        assert!(rt; is_turned_back(rt.alloc(), row));
    }
}

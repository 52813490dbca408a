//! What a list of fields has to be, and what it is turned into.

ghost use Rattle.std.specs.Prelude.{IsTrue};
ghost use Rattle.std.specs.List.{list_all};
ghost use Rattle.byte_grammar.specs.Classes.{is_line_byte};

use field_lists::{FromFault, MessageLimit, ToFault};
use list_texts::FieldsFault;

/// What the text of a list has to be.
pub(crate) fn fields_hint(fault: FieldsFault) -> &'static str
    ensures { IsTrue (list_all is_line_byte result.now) }
{
    match fault {
        FieldsFault::Memory => "out of memory",
        FieldsFault::Syntax(_) => {
            "at that offset is something else than a list has: a line `hms-fields 1`; `field N M` \
             with N bytes of name, M of value and LF; `content N` with N bytes and LF; `trailer N \
             M` as `field`; last a line `end`; each line ends with LF, without CR"
        }
        FieldsFault::TooLong(_) => {
            "the line at that offset says more bytes than 65536 of a name or a value, or 8388608 \
             of the content"
        }
    }
}

/// Which limit the message would pass.
fn limit_hint(limit: MessageLimit) -> &'static str
    ensures { IsTrue (list_all is_line_byte result.now) }
{
    match limit {
        MessageLimit::HeadBytes => "the head of the message would have more bytes than that",
        MessageLimit::TrailerBytes => {
            "the trailer section of the message would have more bytes than that"
        }
        MessageLimit::HeadLines => "the message would have more field lines than that",
        MessageLimit::TrailerLines => "the trailer section would have more field lines than that",
    }
}

/// Why a list is turned into no message.
pub(crate) fn to_message_hint(fault: ToFault) -> &'static str
    ensures { IsTrue (list_all is_line_byte result.now) }
{
    match fault {
        ToFault::Memory => "out of memory",
        ToFault::Pseudo => {
            "the list has to begin with :method, :scheme, :authority and :path, each once and in \
             any order, or with :status alone; the method isn't CONNECT, the scheme is in lower \
             case, the path begins with / and has no #"
        }
        ToFault::SchemeOther => {
            "the list's :scheme isn't that of the configuration, which is https where none is given"
        }
        ToFault::BadField(_) => {
            "the field of that index, counted from 0 with the pseudo-header fields and on through \
             the trailer fields, can't stand in a list: names are in lower case, host, connection, \
             keep-alive, proxy-connection, transfer-encoding and upgrade are of HTTP/1.1, and no \
             value has NUL, CR or LF"
        }
        ToFault::BadLength => {
            "content-length is there once at most, with 1 to 15 digits, and says how many bytes \
             the content has"
        }
        ToFault::BodyRefused => {
            "a response 1xx, 204 or 304 has neither content nor trailer fields, and beside \
             content-length there are no trailer fields"
        }
        ToFault::TooLarge(limit) => limit_hint(limit),
    }
}

/// Why a message is turned into no list.
pub(crate) fn from_message_hint(fault: FromFault) -> &'static str
    ensures { IsTrue (list_all is_line_byte result.now) }
{
    match fault {
        FromFault::Memory => "out of memory",
        FromFault::NoForm => {
            "the target of the request has to begin with / or with a scheme, `https://`: one of \
             CONNECT, and *, have no :path"
        }
        FromFault::NoAuthority => {
            "the request has to say its authority in its target, or in one line Host: a host and \
             perhaps a port, `example.com:8080`, without a user"
        }
    }
}

// Tests of sfv_text.

ghost use Rattle.std.specs.Prelude.{IsTrue};
ghost use Rattle.sfv_text.specs.Range.{is_item_in_range};

use crate::given::is_text;
use sfv_read::read_item;
use sfv_text::{
    BareItem, Dict, Item, Items, List, Member, Memory, Params, Text, append_params,
    append_string_item, print_item,
};
use std::alloc::Global;

// The text of an Item, and the bytes that it has where it is a Byte Sequence.
struct Spelling {
    text: &'static [u8],
    bytes: Option<&'static [u8]>,
}

// The example of sfv_text, of RFC 9651 section 3.1.2. Then RFC 4648 section 10, and each letter of
// its alphabet, in order.
const SPELLINGS: [Spelling; 6] = [
    Spelling {
        text: b"abc;a=1;c",
        bytes: None,
    },
    Spelling {
        text: b"::",
        bytes: Some(b""),
    },
    Spelling {
        text: b":Zg==:",
        bytes: Some(b"f"),
    },
    Spelling {
        text: b":Zm8=:",
        bytes: Some(b"fo"),
    },
    Spelling {
        text: b":Zm9vYmFy:",
        bytes: Some(b"foobar"),
    },
    Spelling {
        text: b":ABCDEFGHIJKLMNOPQRSTUVWXYZabcdefghijklmnopqrstuvwxyz0123456789+/:",
        bytes: Some(
            b"\x00\x10\x83\x10\x51\x87\x20\x92\x8B\x30\xD3\x8F\x41\x14\x93\x51\x55\x97\x61\x96\
            \x9B\x71\xD7\x9F\x82\x18\xA3\x92\x59\xA7\xA2\x9A\xAB\xB2\xDB\xAF\xC3\x1C\xB3\xD3\x5D\
            \xB7\xE3\x9E\xBB\xF3\xDF\xBF",
        ),
    },
];

fn has_bytes(item: &Item, bytes: Option<&[u8]>) -> bool {
    match item.bare.as_byte_sequence() {
        Some(sequence) => bytes == Some(sequence.bytes()),
        None => bytes.is_none(),
    }
}

// Whether the Item is copied, has the bytes and is printed as the text.
fn is_copied(alloc: Global, item: &Item, row: &Spelling) -> bool
    requires { IsTrue (is_item_in_range item.now) }
{
    match item.copy(alloc) {
        Ok(copy) => has_bytes(&copy, row.bytes) && is_text(print_item(alloc, &copy), row.text),
        Err(_) => false,
    }
}

fn is_as_written(alloc: Global, row: &Spelling) -> bool {
    match read_item(alloc, row.text) {
        Ok(item) => is_copied(alloc, &item, row),
        Err(_) => false,
    }
}

#[test]
fn items_are_copied_and_printed_and_byte_sequences_have_all_64_letters(rt: HostRuntime) {
    for row in &SPELLINGS {
        assert!(rt; is_as_written(rt.alloc(), row));
    }
}

// Whether the text becomes longer than its copy, which stays.
fn is_lengthened(text: &mut Text, copy: &Text) -> bool {
    text.append(b"defghijklmnopqrstuvwxyz0123456789").is_ok()
        && text.append(b"ABCDEF").is_ok()
        && copy.bytes() == b"abc".as_slice()
        && text.bytes() == b"abcdefghijklmnopqrstuvwxyz0123456789ABCDEF".as_slice()
}

fn is_copied_before(alloc: Global, text: &mut Text) -> bool {
    match text.copy(alloc) {
        Ok(copy) => is_lengthened(text, &copy),
        Err(_) => false,
    }
}

// Whether a text that is added to and copied has the bytes.
fn is_spelled(alloc: Global, answer: Result<Text, Memory>, first: &[u8]) -> bool {
    match answer {
        Ok(mut text) => {
            text.append(first).is_ok()
                && text.push(b'c').is_ok()
                && is_copied_before(alloc, &mut text)
        }
        Err(_) => false,
    }
}

fn seven(alloc: Global) -> Item {
    Item {
        bare: BareItem::Integer(7),
        params: Params::new(alloc),
    }
}

// Whether a parameter that is put is found.
fn has_seven(alloc: Global, params: &Params) -> bool {
    match params.copy(alloc) {
        Ok(copy) => copy.integer(b"a") == Some(7),
        Err(_) => false,
    }
}

fn are_appended(params: &Params, text: &mut Text) -> bool {
    append_params(params, text).is_ok()
        && append_string_item(b"b", params, text).is_ok()
        && text.bytes() == br#";a=7"b";a=7"#.as_slice()
}

fn is_put(alloc: Global, name: Text, params: &mut Params) -> bool {
    params.put(name, BareItem::Integer(7)).is_ok()
        && has_seven(alloc, params)
        && are_appended(params, &mut Text::new(alloc))
}

// Whether a member that is put into a Dictionary is there, and one that is pushed into a List.
fn are_members(alloc: Global, name: Text, dict: &mut Dict, list: &mut List) -> bool {
    dict.put(name, Member::Item(seven(alloc))).is_ok()
        && dict.find(b"a").is_some()
        && list.push(Member::Item(seven(alloc))).is_ok()
        && list.len() == 1
}

fn are_put(alloc: Global) -> bool {
    match (Text::from_bytes(alloc, b"a"), Text::from_bytes(alloc, b"a")) {
        (Ok(key), Ok(name)) => {
            is_put(alloc, key, &mut Params::new(alloc))
                && are_members(alloc, name, &mut Dict::new(alloc), &mut List::new(alloc))
        }
        _ => false,
    }
}

fn has_one(items: &Items) -> bool {
    match items.as_slice() {
        [item] => item.bare.as_integer() == Some(7),
        _ => false,
    }
}

// Whether an Item that is pushed is there.
fn is_pushed(alloc: Global) -> bool {
    match Items::with_capacity(alloc, 1) {
        Ok(mut items) => items.push(seven(alloc)).is_ok() && has_one(&items),
        Err(_) => false,
    }
}

#[test]
fn texts_and_values_are_built(rt: HostRuntime) {
    let alloc = rt.alloc();
    assert!(rt; is_spelled(alloc, Text::from_bytes(alloc, b"a"), b"b"));
    assert!(rt; is_spelled(alloc, Text::with_capacity(alloc, 39), b"ab"));
    assert!(rt; are_put(alloc) && is_pushed(alloc));
}

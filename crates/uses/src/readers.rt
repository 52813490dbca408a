// Tests of sfv_read, and of the readers of bytes below it.

use SfError::Syntax;
use byte_grammar::{
    Byte, ByteClass, Class, Left, is_tchar, read_all, read_byte, read_run, read_word, starts_with,
};
use sfv_read::{SfError, has_key, read_dict, read_inner, read_item, read_list};
use sfv_text::{Text, print_dict, print_inner, print_item, print_list};
use std::alloc::Global;

// The example of byte_grammar.
fn are_bytes_read() -> bool {
    let (visible, after_visible) = read_all(Class::Visible, b"a b");
    let run = match read_run(Class::Digit, 1, 2, b"123;") {
        Ok((digits, rest)) => digits == b"12".as_slice() && rest == b"3;".as_slice(),
        Err(_) => false,
    };
    let word = match read_word(Class::Alpha, Class::Tchar, b"a1;") {
        Ok((word, rest)) => word == b"a1".as_slice() && rest == b";".as_slice(),
        Err(_) => false,
    };
    run && word && visible == b"a".as_slice() && after_visible == b" b".as_slice()
}

fn are_bytes_refused() -> bool {
    let byte = match read_byte(Byte(b';'), b"a1") {
        Ok(_) => false,
        Err(Left(count)) => count == 2,
    };
    byte && starts_with(Class::Digit, b"1") && is_tchar(b'!') && !Class::Blank.allows(b'!')
}

#[test]
fn bytes_of_a_class_are_read(rt: HostRuntime) {
    assert!(rt; are_bytes_read() && are_bytes_refused());
}

enum Kind {
    Item,
    Inner,
    List,
    Dict,
}

// The strict text of what is read.
fn strict_text(kind: &Kind, alloc: Global, text: &[u8]) -> Result<Text, SfError> {
    let printed = match kind {
        Kind::Item => print_item(alloc, &read_item(alloc, text)?),
        Kind::Inner => print_inner(alloc, &read_inner(alloc, text)?),
        Kind::List => print_list(alloc, &read_list(alloc, text)?),
        Kind::Dict => print_dict(alloc, &read_dict(alloc, text)?),
    };
    match printed {
        Ok(text) => Ok(text),
        Err(_) => Err(SfError::Memory),
    }
}

// Texts, and the strict text of their value, or why they aren't read.
struct Reads {
    kind: Kind,
    texts: &'static [&'static [u8]],
    read: Result<&'static [u8], SfError>,
}

// Texts with blanks at their ends, which a field's value never has, a repeated key, and faults (RFC
// 9651 section 3). No line of the program has an offset in a List or a Dictionary. With the faults
// of `(a b` and `%"%ff"`, the example of sfv_read.
const READS: [Reads; 9] = [
    Reads {
        kind: Kind::Item,
        texts: &[b" 1 "],
        read: Ok(b"1"),
    },
    Reads {
        kind: Kind::Item,
        texts: &[b" @-0 "],
        read: Ok(b"@0"),
    },
    Reads {
        kind: Kind::List,
        texts: &[br#"%"a%21f%c3%bc",(@1)"#],
        read: Ok(br#"%"a!f%c3%bc", (@1)"#),
    },
    Reads {
        kind: Kind::Inner,
        texts: &[b" (  ) "],
        read: Ok(b"()"),
    },
    Reads {
        kind: Kind::List,
        texts: &[b"  "],
        read: Ok(b""),
    },
    Reads {
        kind: Kind::List,
        texts: &[b" a ,\t b\t "],
        read: Ok(b"a, b"),
    },
    Reads {
        kind: Kind::Dict,
        texts: &[b" "],
        read: Ok(b""),
    },
    Reads {
        kind: Kind::Dict,
        texts: &[b"a=1, b, a=2"],
        read: Ok(b"a=2, b"),
    },
    Reads {
        kind: Kind::Dict,
        texts: &[b"a=?1;x,b;x=1\t"],
        read: Ok(b"a;x, b;x=1"),
    },
];

const REFUSES: [Reads; 17] = [
    Reads {
        kind: Kind::Item,
        texts: &[b"", b"\t1"],
        read: Err(Syntax(0)),
    },
    Reads {
        kind: Kind::Item,
        texts: &[b"1\t", b"1,2", b"a\x80"],
        read: Err(Syntax(1)),
    },
    Reads {
        kind: Kind::Item,
        texts: &[b"  ", b"1 \t", b"1 2", b"@1.5", b" @", b"%\"\x80\""],
        read: Err(Syntax(2)),
    },
    Reads {
        kind: Kind::Item,
        texts: &[b":AB:", br#"%"%80""#],
        read: Err(Syntax(3)),
    },
    Reads {
        kind: Kind::Item,
        texts: &[br#"%"%ff""#, br#"%"%cA""#],
        read: Err(Syntax(4)),
    },
    Reads {
        kind: Kind::Item,
        texts: &[b"1.2345"],
        read: Err(Syntax(5)),
    },
    Reads {
        kind: Kind::Item,
        texts: &[b"abcdefgh @1", b"abcdefgh %"],
        read: Err(Syntax(9)),
    },
    Reads {
        kind: Kind::Inner,
        texts: &[b"(a b"],
        read: Err(Syntax(4)),
    },
    Reads {
        kind: Kind::List,
        texts: &[b"\ta", b",a"],
        read: Err(Syntax(0)),
    },
    Reads {
        kind: Kind::List,
        texts: &[b" \t"],
        read: Err(Syntax(1)),
    },
    Reads {
        kind: Kind::List,
        texts: &[b"a,", b"a,,b", b"a b", b"a ;b", b"a @"],
        read: Err(Syntax(2)),
    },
    Reads {
        kind: Kind::List,
        texts: &[b"a, %", b"a,\t@"],
        read: Err(Syntax(4)),
    },
    Reads {
        kind: Kind::Dict,
        texts: &[b"A=1", br#""a"=1"#, b"@a"],
        read: Err(Syntax(0)),
    },
    Reads {
        kind: Kind::Dict,
        texts: &[b"a=", b"a =1", b"a= 1"],
        read: Err(Syntax(2)),
    },
    Reads {
        kind: Kind::Dict,
        texts: &[b"a=1,", b"a=1,,b", b"a=1 b=2", b"a=1;A", b"a=(@"],
        read: Err(Syntax(4)),
    },
    Reads {
        kind: Kind::Dict,
        texts: &[b"a;b=%"],
        read: Err(Syntax(5)),
    },
    Reads {
        kind: Kind::Dict,
        texts: &[b"a=1, b=@"],
        read: Err(Syntax(8)),
    },
];

fn is_read(alloc: Global, text: &[u8], row: &Reads) -> bool {
    match strict_text(&row.kind, alloc, text) {
        Ok(strict) => row.read == Ok(strict.bytes()),
        Err(fault) => row.read == Err(fault),
    }
}

#[test]
fn texts_read_as_their_values(rt: HostRuntime) {
    for row in &READS {
        for text in row.texts {
            assert!(rt; is_read(rt.alloc(), *text, row));
        }
    }
}

#[test]
fn texts_are_refused_at_the_exact_offset(rt: HostRuntime) {
    for row in &REFUSES {
        for text in row.texts {
            assert!(rt; is_read(rt.alloc(), *text, row));
        }
    }
}

// A text, a key, and whether the Dictionary has it, or the fault of a text that is none.
struct Asked {
    text: &'static [u8],
    key: &'static [u8],
    found: Result<bool, SfError>,
}

const ASKED: [Asked; 4] = [
    Asked {
        text: b" a=1, b, a=2",
        key: b"a",
        found: Ok(true),
    },
    Asked {
        text: b" a=1, b, a=2",
        key: b"b",
        found: Ok(true),
    },
    Asked {
        text: b" a=1, b, a=2",
        key: b"c",
        found: Ok(false),
    },
    Asked {
        text: b"a=1,",
        key: b"a",
        found: Err(Syntax(4)),
    },
];

#[test]
fn a_dictionary_is_asked_for_one_key(rt: HostRuntime) {
    for row in &ASKED {
        assert!(rt; has_key(rt.alloc(), row.text, row.key) == row.found);
    }
}

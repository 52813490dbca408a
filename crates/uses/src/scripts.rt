// Tests of scripts.

use crate::given::is_text;
use rewrite_script::{ScriptFault, print_script, read_script};
use std::alloc::Global;

struct Row {
    // How many lines are read, or the index of the first that isn't.
    read: Result<usize, usize>,
    texts: &'static [&'static [u8]],
}

const ROWS: [Row; 7] = [
    Row {
        read: Ok(0),
        texts: &[b""],
    },
    Row {
        read: Ok(1),
        texts: &[
            b"pad h 1 ss -\n",
            b"pad h 1 - -\n",
            b"fold h 3 5 t\n",
            b"fold h 3 5 -\n",
            b"unfold h 3 5\n",
            b"join h 2 4\n",
            b"split t 0 7\n",
            b"move h 5 0\n",
            b"case h 0 HOST\n",
            b"add h 2 Via 1.1 proxy\n",
            b"add h 2 Via \n",
            b"remove t 1\n",
            b"add-label b AAAA ();created=1\n",
            b"add-label *b.1  (\"a\"  \"b\" )\n",
            b"add-label b AAAA (@1)\n",
        ],
    },
    Row {
        read: Ok(2),
        texts: &[
            b"pad h 1 st ts\nmove t 0 999999999\n",
            b"chunk\nchunk 999999999\n",
            b"resf h example-dict\nresf t a\n",
        ],
    },
    Row {
        read: Err(0),
        texts: &[
            b"pad h 1 ss -",
            b"\n",
            b"pad h 1 ss \n",
            b"pad h 1 ss\n",
            b"pad h 1 ss - \n",
            b"pad h 1  - -\n",
            b"pad x 1 - -\n",
            b"pad h 01 - -\n",
            b"pad h 1 -- -\n",
            b"pad h 1 s- -\n",
            b"fold h 3 5\n",
            b"unfold h 3 5 \n",
            b"unfold h 3\n",
            b"move h 5 00\n",
            b"move h 1000000000 0\n",
            b"move h -1 0\n",
            b"move h  0\n",
            b"case h 0 HO ST\n",
            b"case h 0 \n",
            b"add h 2 Via\n",
            b"add h 2 Via a\0b\n",
            b"add h 2 Via a\rb\n",
            b"add h 2 Via a\r\n",
            b"add h 2 V:a b\n",
            b"remove t\n",
            b"remove  1\n",
            b" remove t 1\n",
            b"REMOVE t 1\n",
            b"add-label B AAAA ()\n",
            b"add-label b AAA ()\n",
            b"add-label b AB== ()\n",
            b"add-label b AAAA  ()\n",
            b"add-label b AAAA () \n",
            b"add-label b AAAA\n",
            b"add-label b AAAA (\n",
            b"rechunk \n",
            b"rechunk 5  6\n",
            b"rechunk 05\n",
            b"chunk 1000000000\n",
            b"chunk 5 \n",
            b"dechunk \n",
            b"absolute /\n",
            b"host\n",
            b"query \n",
            b"query a\n",
            b"query ?a b\n",
            b"query ?a#b\n",
            b"resf h Date\n",
            b"resf h \n",
        ],
    },
    Row {
        read: Err(1),
        texts: &[b"remove h 0\n\n"],
    },
    Row {
        read: Err(2),
        texts: &[b"remove h 0\nremove h 0\nx"],
    },
    Row {
        read: Ok(3),
        texts: &[
            b"rechunk\nrechunk 5 13\nrechunk 0\n",
            b"dechunk\norigin\nabsolute\n",
            b"host example.com\nhost \nhost a b \n",
            b"query\nquery ?\nquery ?a=1&b?c\n",
        ],
    },
];

// Whether the text is read so, and is printed as it was.
fn is_read(alloc: Global, text: &[u8], row: &Row) -> bool {
    match read_script(alloc, text) {
        Ok(script) => {
            row.read == Ok(script.len()) && is_text(print_script(alloc, script.as_slice()), text)
        }
        Err(ScriptFault::BadLine(index)) => row.read == Err(index),
        Err(_) => false,
    }
}

#[test]
fn lines_are_those_of_rewritings(rt: HostRuntime) {
    for row in &ROWS {
        for text in row.texts {
            assert!(rt; is_read(rt.alloc(), *text, row));
        }
    }
}

// Tests of targets in derived_values.

use derived_values::{ParamFound, query_param};
use std::alloc::Global;

// What a query has under a name.
#[derive(Clone, Copy)]
enum Answer {
    None,
    One(&'static [u8]),
    Many,
}

struct Case {
    query: &'static [u8],
    name: &'static [u8],
    answer: Answer,
}

// The last queries have bytes that no target has (RFC 9112 section 3.2).
const CASES: [Case; 4] = [
    Case {
        query: b"a=1&%61=2",
        name: b"a",
        answer: Answer::Many,
    },
    Case {
        query: b"%c3%A7=1",
        name: b"\xC3\xA7",
        answer: Answer::None,
    },
    Case {
        query: b"d=\xC3\xA7\x00\r\n\x7F",
        name: b"d",
        answer: Answer::One(b"%C3%A7%00%0D%0A%7F"),
    },
    Case {
        query: b"b=\xFFx&%FE=1&\xFF=2",
        name: b"b",
        answer: Answer::One(b"%EF%BF%BDx"),
    },
];

fn is_found(alloc: Global, case: &Case) -> bool {
    match (query_param(alloc, case.query, case.name), case.answer) {
        (Ok(ParamFound::None), Answer::None) => true,
        (Ok(ParamFound::One(text)), Answer::One(value)) => text.bytes() == value,
        (Ok(ParamFound::Many), Answer::Many) => true,
        _ => false,
    }
}

#[test]
fn parameters_of_a_query_are_found(rt: HostRuntime) {
    for case in &CASES {
        assert!(rt; is_found(rt.alloc(), case));
    }
}

//! Of `conf` and `settings`: what a configuration says that no command shows yet, keys that
//! are added to it, and lists of covered components. How it says what is signed: see `signings`.

use crate::given::conf_of;
use conf::{Conf, empty_conf};
use settings::read_covered;
use std::alloc::Global;

const POLICIES: &[u8] = b"version = 2\nnonces = 7\n\
policies = [{ tag = \"app\", max-age = 5 }, { max-age = 6 }]";

// A configuration, how many nonces are kept by it and how many policies it has, and the `max-age`
// of the one that is chosen for a tag.
struct Row {
    text: &'static [u8],
    nonces: usize,
    policies: usize,
    tag: Option<&'static [u8]>,
    max_age: u64,
}

const ROWS: [Row; 5] = [
    Row {
        text: b"",
        nonces: 65_536,
        policies: 1,
        tag: None,
        max_age: 300,
    },
    Row {
        text: b"policy.nonces = 1",
        nonces: 1,
        policies: 1,
        tag: None,
        max_age: 300,
    },
    Row {
        text: POLICIES,
        nonces: 7,
        policies: 2,
        tag: Some(b"app"),
        max_age: 5,
    },
    Row {
        text: POLICIES,
        nonces: 7,
        policies: 2,
        tag: Some(b"ap"),
        max_age: 6,
    },
    Row {
        text: POLICIES,
        nonces: 7,
        policies: 2,
        tag: None,
        max_age: 6,
    },
];

// Whether the configuration says what the row does.
fn is_said(conf: &Conf, row: &Row) -> bool {
    match conf.policy_for(row.tag) {
        Some(policy) => {
            policy.max_age == row.max_age
                && conf.policies().len() == row.policies
                && conf.nonces() == row.nonces
        }
        None => false,
    }
}

fn holds(alloc: Global, row: &Row) -> bool {
    match conf_of(alloc, row.text) {
        Some(given) => is_said(&given.conf, row),
        None => false,
    }
}

#[test]
fn nonces_are_counted_and_the_policy_of_the_tag_is_chosen(rt: HostRuntime) {
    for (index, row) in ROWS.iter().enumerate() {
        assert!(rt; holds(rt.alloc(), row), "at {index}");
    }
}

// Whether a key that is added to a configuration without keys is the one key in it.
fn takes_key(conf: &mut Conf) -> bool {
    conf.key(b"a").is_none()
        && conf.add_key(b"a", b"1").is_ok()
        && conf.key(b"a") == Some(b"1".as_slice())
        && conf.key(b"b").is_none()
}

fn is_added(alloc: Global) -> bool {
    match empty_conf(alloc) {
        Ok(mut conf) => takes_key(&mut conf),
        Err(_) => false,
    }
}

// How many components the text covers; None where it is no list of them.
fn covered_in(alloc: Global, text: &[u8]) -> Option<usize> {
    match read_covered(alloc, text) {
        Ok(Some(ids)) => Some(ids.len()),
        _ => None,
    }
}

#[test]
fn keys_are_added_and_lists_of_components_read(rt: HostRuntime) {
    let alloc = rt.alloc();
    assert!(rt; is_added(alloc));
    assert!(rt; covered_in(alloc, b"(\"date\" \"@authority\")") == Some(2));
    assert!(rt; covered_in(alloc, b"();a").is_none());
}

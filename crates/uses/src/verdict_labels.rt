// Tests of signatures and verdicts.

ghost use Rattle.std.specs.Prelude.{◌≡◌, ◌<◌, IsTrue};
ghost use Rattle.component_ids.specs.SignatureParams.{are_sig_params_in_range};

use crate::given::{conf_of, message};
use component_values::{Context, Prepared, prepare};
use conf::Conf;
use msg_body::MessageView;
use nonces::{NonceBook, Steps};
use signatures::{LabelRead, Rule, labels_of, read_label};
use std::alloc::Global;
use std::marker::Brand;
use std::sync::ledger::{Blank, Ledger};
use verdicts::{Verdict, tag_matches, verdict};

// The signature of RFC 9421 appendix B.2.5.
const STANDARD: &[u8] = b"GET /foo HTTP/1.1\r\n\
    Host: example.com\r\n\
    Date: Tue, 20 Apr 2021 02:07:55 GMT\r\n\
    Content-Type: application/json\r\n\
    Signature-Input: s=(\"date\" \"@authority\" \"content-type\");created=1618884473;\
    keyid=\"test-shared-secret\"\r\n\
    Signature: s=:pxcQw6G3AjtMBQjwo8XzkZf/bws5LelbaMk5rGIGtE8=:\r\n\r\n";

// The same with a nonce. The tag was made apart from this repository.
const WITH_NONCE: &[u8] = b"GET /foo HTTP/1.1\r\n\
    Host: example.com\r\n\
    Date: Tue, 20 Apr 2021 02:07:55 GMT\r\n\
    Content-Type: application/json\r\n\
    Signature-Input: s=(\"date\" \"@authority\" \"content-type\");created=1618884473;\
    keyid=\"test-shared-secret\";nonce=\"n\"\r\n\
    Signature: s=:LJN2pAW/z3pLCH9p++Ubl7Ry7ePHbayYjLaOhlpyQME=:\r\n\r\n";

// With another tag.
const WRONG: &[u8] = b"GET /foo HTTP/1.1\r\n\
    Host: example.com\r\n\
    Date: Tue, 20 Apr 2021 02:07:55 GMT\r\n\
    Content-Type: application/json\r\n\
    Signature-Input: s=(\"date\" \"@authority\" \"content-type\");created=1618884473;\
    keyid=\"test-shared-secret\";nonce=\"n\"\r\n\
    Signature: s=:AAAA:\r\n\r\n";

// With the right tag and content whose digest isn't covered.
const WITH_CONTENT: &[u8] = b"GET /foo HTTP/1.1\r\n\
    Host: example.com\r\n\
    Date: Tue, 20 Apr 2021 02:07:55 GMT\r\n\
    Content-Type: application/json\r\n\
    Content-Length: 2\r\n\
    Signature-Input: s=(\"date\" \"@authority\" \"content-type\");created=1618884473;\
    keyid=\"test-shared-secret\";nonce=\"n\"\r\n\
    Signature: s=:LJN2pAW/z3pLCH9p++Ubl7Ry7ePHbayYjLaOhlpyQME=:\r\n\r\n{}";

const CREATED: u64 = 1_618_884_473;

// The key of RFC 9421 appendix B.1.5, for signatures with a nonce that are at most 300 seconds old
// and cover the digest of content.
const CONF: &[u8] = b"[keys]\n\
    \"test-shared-secret\" = \
    \"uzvJfB4u3N0Jy4T7NZ75MDVcr8zSTInedJtkgcu46YW4XByzNJjxBdtjUkdJPBtbmHhIDi6pcl8jsasjlTMtDQ==\"\n\
    [policy]\nmax-age = 300\nnonce = \"require\"\ndigest = \"content\"\n";

// A book of one entry, which holds this nonce until the signature's moment, and the rule that fails
// at that moment or a second later.
struct Row {
    conf: &'static [u8],
    message: &'static [u8],
    held: &'static [u8; 1],
    is_later: bool,
    rule: Option<Rule>,
}

const ROWS: [Row; 9] = [
    Row {
        conf: CONF,
        message: STANDARD,
        held: b"m",
        is_later: false,
        rule: Some(Rule::NonceAbsent),
    },
    Row {
        conf: CONF,
        message: WITH_NONCE,
        held: b"n",
        is_later: false,
        rule: Some(Rule::NonceRepeated),
    },
    Row {
        conf: CONF,
        message: WITH_NONCE,
        held: b"n",
        is_later: true,
        rule: None,
    },
    Row {
        conf: CONF,
        message: WITH_NONCE,
        held: b"m",
        is_later: false,
        rule: Some(Rule::NoncesFull),
    },
    Row {
        conf: CONF,
        message: WITH_NONCE,
        held: b"m",
        is_later: true,
        rule: None,
    },
    Row {
        conf: CONF,
        message: WRONG,
        held: b"n",
        is_later: false,
        rule: Some(Rule::NonceRepeated),
    },
    Row {
        conf: CONF,
        message: WRONG,
        held: b"m",
        is_later: false,
        rule: Some(Rule::MacMismatch),
    },
    Row {
        conf: CONF,
        message: WITH_CONTENT,
        held: b"n",
        is_later: false,
        rule: Some(Rule::NonceRepeated),
    },
    Row {
        conf: CONF,
        message: WITH_CONTENT,
        held: b"m",
        is_later: false,
        rule: Some(Rule::Digest),
    },
];

// Whether the verdict has this rule, or is that the label is right.
fn has_rule(verdict: &Verdict, rule: Option<Rule>) -> bool {
    match verdict {
        Verdict::Ok { keyid: _ } => rule.is_none(),
        Verdict::Rule { number, place: _ } => rule == Some(*number),
    }
}

// Whether this rule fails of the label `s`, or none, at the book's moment.
fn is_verdict<L: Ledger>(
    alloc: Global,
    conf: &Conf,
    view: &MessageView<'_>,
    book: &NonceBook,
    rule: Option<Rule>,
    steps: &mut Steps<L>,
) -> bool {
    let context = Context::of_message(view, conf.scheme(), conf.types());
    match verdict(
        alloc,
        &context,
        b"s",
        conf,
        book.moment(),
        Some(book),
        steps,
    ) {
        Ok(found) => has_rule(&found, rule),
        Err(_) => false,
    }
}

// Whether the row holds of the message, by a book that holds its nonce until the first moment.
fn is_judged<L: Ledger>(
    alloc: Global,
    conf: &Conf,
    view: &MessageView<'_>,
    row: &Row,
    steps: &mut Steps<L>,
) -> bool {
    let Ok(mut book) = NonceBook::open(alloc, 1, 300, CREATED) else {
        return false;
    };
    let held = row.held;
    let _ = book.record(b"test-shared-secret", held, CREATED, steps);
    if row.is_later {
        book.advance(CREATED + 1, steps);
    }
    is_verdict(alloc, conf, view, &book, row.rule, steps)
}

fn is_judged_by<L: Ledger>(alloc: Global, conf: &Conf, row: &Row, steps: &mut Steps<L>) -> bool {
    match message(alloc, row.message) {
        Some(given) => is_judged(alloc, conf, &given.view, row, steps),
        None => false,
    }
}

fn holds<L: Ledger>(alloc: Global, row: &Row, steps: &mut Steps<L>) -> bool {
    match conf_of(alloc, row.conf) {
        Some(given) => is_judged_by(alloc, &given.conf, row, steps),
        None => false,
    }
}

fn rows_hold<L: Ledger>(alloc: Global, blank: Blank) -> bool
    requires name { blank.name ≡ L.name }
    requires parts { blank.parts ≡ L.parts }
    requires some { 0 < blank.parts }
{
    let mut steps: Steps<L> = Steps::new(blank);
    for row in &ROWS {
        if !holds(alloc, row, &mut steps) {
            return false;
        }
    }
    true
}

#[test]
fn a_nonce_is_refused_while_it_lives(rt: HostRuntime) {
    assert!(&rt; rows_hold::<Brand>(rt.alloc(), Blank::new(1)));
}

fn has_label(alloc: Global, view: &MessageView<'_>) -> bool {
    match labels_of(alloc, view) {
        Ok(labels) => match labels.as_slice() {
            [label] => label.bytes() == b"s".as_slice(),
            _ => false,
        },
        Err(_) => false,
    }
}

// Whether the signature has three components and a tag of 32 bytes.
fn has_signature(alloc: Global, view: &MessageView<'_>) -> bool {
    match read_label(alloc, view, b"s") {
        Ok(read) => read.params.ids.len() == 3 && read.tag.bytes().len() == 32,
        Err(_) => false,
    }
}

fn is_standard(alloc: Global) -> bool {
    match message(alloc, STANDARD) {
        Some(given) => has_label(alloc, &given.view) && has_signature(alloc, &given.view),
        None => false,
    }
}

#[test]
fn labels_and_signatures_are_read(rt: HostRuntime) {
    assert!(&rt; is_standard(rt.alloc()));
}

// Whether the tag is right under this key, and isn't under another one, and other bytes aren't.
fn is_right_tag(prepared: &Prepared<'_, '_>, key: &[u8], tag: &[u8]) -> bool {
    tag_matches(prepared, key, tag)
        && !tag_matches(prepared, b"k", tag)
        && !tag_matches(prepared, key, &[0; 32])
}

fn is_signed_by(alloc: Global, conf: &Conf, context: &Context<'_, '_>, read: &LabelRead) -> bool
    requires { IsTrue (are_sig_params_in_range read.now.params) }
{
    match (
        prepare(alloc, context, &read.params),
        conf.key(b"test-shared-secret"),
    ) {
        (Ok(prepared), Some(key)) => is_right_tag(&prepared, key, read.tag.bytes()),
        _ => false,
    }
}

fn is_signed_in(alloc: Global, conf: &Conf, view: &MessageView<'_>) -> bool {
    let context = Context::of_message(view, conf.scheme(), conf.types());
    match read_label(alloc, view, b"s") {
        Ok(read) => is_signed_by(alloc, conf, &context, &read),
        Err(_) => false,
    }
}

fn is_signed(alloc: Global) -> bool {
    match (conf_of(alloc, CONF), message(alloc, STANDARD)) {
        (Some(given), Some(signed)) => is_signed_in(alloc, &given.conf, &signed.view),
        _ => false,
    }
}

#[test]
fn a_tag_is_that_of_the_base_under_a_key(rt: HostRuntime) {
    assert!(&rt; is_signed(rt.alloc()));
}

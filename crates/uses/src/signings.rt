// Tests of signing, of what conf says of it, and of negotiation.

ghost use Rattle.std.specs.Prelude.{IfSome, IsSome, All};
ghost use Rattle.framing.specs.Framings.{is_head_request};
ghost use Rattle.msg_body.specs.Messages.{IsMessage};
ghost use Rattle.msg_body.specs.Views.{message_of as message_in};
ghost use Rattle.component_values.specs.Context.{HasWholeMessage, context_of};
ghost use Rattle.settings.specs.ConfMeaning.{meaning};
ghost use Rattle.signing.specs.Specs.{IsValidSpec};

use crate::given::{GivenConf, conf_of, message, response};
use commands::{Outcome, wished_outcome};
use component_values::Context;
use conf::Conf;
use intake::Stop;
use msg_body::MessageView;
use negotiation::{EachFault, NegotiateFault, negotiate, sign_each};
use signing::{SignFault, SignSpec, sign, spec_of, wanted};
use std::alloc::Global;

const MOMENT: u64 = 1_618_884_473;

// What is signed in RFC 9421 appendix B.2.5, by the key of appendix B.1.5.
const CONF: &[u8] = b"[keys]\n\
    \"test-shared-secret\" = \
    \"uzvJfB4u3N0Jy4T7NZ75MDVcr8zSTInedJtkgcu46YW4XByzNJjxBdtjUkdJPBtbmHhIDi6pcl8jsasjlTMtDQ==\"\n\
    [sign]\nlabel = \"sig-b25\"\nkeyid = \"test-shared-secret\"\n\
    components-request = '(\"date\" \"@authority\" \"content-type\")'\n";

// The digest of the content alone.
const CONF_OF_DIGEST: &[u8] = b"[keys]\n\
    \"test-shared-secret\" = \
    \"uzvJfB4u3N0Jy4T7NZ75MDVcr8zSTInedJtkgcu46YW4XByzNJjxBdtjUkdJPBtbmHhIDi6pcl8jsasjlTMtDQ==\"\n\
    [sign]\nlabel = \"sig-b25\"\nkeyid = \"test-shared-secret\"\ndigest = \"sha-256\"\n\
    components-request = '(\"content-digest\")'\n";

// The whole field `Signature`, which the signature would change.
const CONF_OF_ITSELF: &[u8] = b"keys.k = \"AAAA\"\n\
    [sign]\nlabel = \"x\"\nkeyid = \"k\"\ncomponents-request = '(\"signature\")'\n";

// The configuration of the text, where it says what is signed.
fn signing_conf(alloc: Global, text: &[u8]) -> Option<GivenConf>
    ensures { IfSome result (λ given. IsSome (meaning given.conf).sign) }
{
    match conf_of(alloc, text) {
        Some(given) => match given.conf.sign() {
            Some(_) => Some(given),
            None => None,
        },
        None => None,
    }
}

// The request of RFC 9421 appendix B.2 without its Content-Digest, and with the signature of
// appendix B.2.5.
const UNSIGNED: &[u8] = b"POST /foo?param=Value&Pet=dog HTTP/1.1\r\n\
    Host: example.com\r\n\
    Date: Tue, 20 Apr 2021 02:07:55 GMT\r\n\
    Content-Type: application/json\r\n\
    Content-Length: 18\r\n\r\n\
    {\"hello\": \"world\"}";

const STANDARD: &[u8] = b"POST /foo?param=Value&Pet=dog HTTP/1.1\r\n\
    Host: example.com\r\n\
    Date: Tue, 20 Apr 2021 02:07:55 GMT\r\n\
    Content-Type: application/json\r\n\
    Content-Length: 18\r\n\
    Signature-Input: sig-b25=(\"date\" \"@authority\" \"content-type\")\
    ;created=1618884473;keyid=\"test-shared-secret\"\r\n\
    Signature: sig-b25=:pxcQw6G3AjtMBQjwo8XzkZf/bws5LelbaMk5rGIGtE8=:\r\n\r\n\
    {\"hello\": \"world\"}";

// The same content in chunks. The tag was made apart from this repository.
const CHUNKED: &[u8] = b"POST / HTTP/1.1\r\n\
    Transfer-Encoding: chunked\r\n\r\n\
    5\r\n{\"hel\r\nd\r\nlo\": \"world\"}\r\n0\r\n\r\n";

const WITH_DIGEST: &[u8] = b"POST / HTTP/1.1\r\n\
    Transfer-Encoding: chunked\r\n\
    Content-Digest: sha-256=:X48E9qOokqqrvdts8nOJRJN3OWDUoyWxBf7kbu9DBPE=:\r\n\
    Signature-Input: sig-b25=(\"content-digest\")\
    ;created=1618884473;keyid=\"test-shared-secret\"\r\n\
    Signature: sig-b25=:gwlRaXDHuuuxHH+YETYoDsMV5/9/PscX7PAI8KW9BfE=:\r\n\r\n\
    5\r\n{\"hel\r\nd\r\nlo\": \"world\"}\r\n0\r\n\r\n";

// A message, and what is written of it, or why it isn't signed.
struct Signed {
    conf: &'static [u8],
    message: &'static [u8],
    written: Result<&'static [u8], SignFault>,
}

const SIGNED: [Signed; 4] = [
    Signed {
        conf: CONF,
        message: UNSIGNED,
        written: Ok(STANDARD),
    },
    Signed {
        conf: CONF_OF_DIGEST,
        message: CHUNKED,
        written: Ok(WITH_DIGEST),
    },
    Signed {
        conf: CONF,
        message: STANDARD,
        written: Err(SignFault::LabelThere),
    },
    Signed {
        conf: CONF_OF_ITSELF,
        message: STANDARD,
        written: Err(SignFault::SelfCover(0)),
    },
];

// Whether signing by what is asked for comes to the row's text or fault.
fn comes_to(alloc: Global, context: &Context<'_, '_>, spec: &SignSpec, row: &Signed) -> bool
    requires valid { IsValidSpec spec.now }
    requires whole { HasWholeMessage (context_of context.now) }
{
    match sign(alloc, context, spec) {
        Ok(text) => row.written == Ok(text.bytes()),
        Err(fault) => row.written == Err(fault),
    }
}

fn is_signed(alloc: Global, conf: &Conf, context: &Context<'_, '_>, row: &Signed) -> bool
    requires table { IsSome (meaning conf.now).sign }
    requires whole { HasWholeMessage (context_of context.now) }
{
    match spec_of(alloc, conf, true, MOMENT, None) {
        Ok(spec) => comes_to(alloc, context, &spec, row),
        Err(_) => false,
    }
}

fn is_signed_by(alloc: Global, conf: &Conf, row: &Signed) -> bool
    requires { IsSome (meaning conf.now).sign }
{
    match message(alloc, row.message) {
        Some(given) => {
            let context = Context::of_message(&given.view, conf.scheme(), conf.types());
            is_signed(alloc, conf, &context, row)
        }
        None => false,
    }
}

fn is_message_signed(alloc: Global, row: &Signed) -> bool {
    match signing_conf(alloc, row.conf) {
        Some(given) => is_signed_by(alloc, &given.conf, row),
        None => false,
    }
}

#[test]
fn messages_are_signed_or_have_a_fault(rt: HostRuntime) {
    for (index, row) in SIGNED.iter().enumerate() {
        assert!(rt; is_message_signed(rt.alloc(), row), "at {index}");
    }
}

// A response, its request, and what is written where it is signed as that asks; or the index of the
// first wish whose signature isn't made, and why.
struct Wished {
    conf: &'static [u8],
    request: &'static [u8],
    response: &'static [u8],
    written: Result<&'static [u8], (usize, SignFault)>,
}

// A request for two signatures, the second over the first.
const BOTH: &[u8] = b"GET / HTTP/1.1\r\nHost: h\r\n\
    Accept-Signature: a=(\"content-digest\"), \
    b=(\"signature\";key=\"a\" \"content-digest\")\r\n\r\n";

const HELLO: &[u8] = b"HTTP/1.1 200 OK\r\nContent-Length: 18\r\n\r\n{\"hello\": \"world\"}";

// The tags were made apart from this repository.
const WITH_SHA_256: &[u8] = b"HTTP/1.1 200 OK\r\nContent-Length: 18\r\n\
    Content-Digest: sha-256=:X48E9qOokqqrvdts8nOJRJN3OWDUoyWxBf7kbu9DBPE=:\r\n\
    Signature-Input: sig1=(\"@status\" \"content-digest\")\
    ;created=1618884473;keyid=\"test-shared-secret\"\r\n\
    Signature: sig1=:/3Qk4Nyw+fNzc7nJnt7ELOzk+p7msZ8sKYc0+s6voNc=:\r\n\r\n\
    {\"hello\": \"world\"}";

const WITH_BOTH: &[u8] = b"HTTP/1.1 200 OK\r\nContent-Length: 18\r\n\
    Content-Digest: sha-256=:X48E9qOokqqrvdts8nOJRJN3OWDUoyWxBf7kbu9DBPE=:\r\n\
    Signature-Input: a=(\"content-digest\");created=1618884473;keyid=\"test-shared-secret\"\r\n\
    Signature: a=:gwlRaXDHuuuxHH+YETYoDsMV5/9/PscX7PAI8KW9BfE=:\r\n\
    Signature-Input: b=(\"signature\";key=\"a\" \"content-digest\")\
    ;created=1618884473;keyid=\"test-shared-secret\"\r\n\
    Signature: b=:y8wLmPh1WBs3QuAGV3p/Dn9SC/gK+z4hd0H85U8V4Bw=:\r\n\r\n\
    {\"hello\": \"world\"}";

// A response with both digests and a signature, and the same with another one beside it.
const SIGNED_BEFORE: &[u8] = b"HTTP/1.1 200 OK\r\nContent-Length: 18\r\n\
    Content-Digest: sha-256=:X48E9qOokqqrvdts8nOJRJN3OWDUoyWxBf7kbu9DBPE=:, \
    sha-512=:WZDPaVn/7XgHaAy8pmojAkGWoRx2UFChF41A2svX+TaPm+AbwAgBWnrIiYllu7BNNyealdVLvRwEmTHWXvJw\
    ew==:\r\n\
    Signature-Input: old=(\"@status\");created=1618884473;keyid=\"test-shared-secret\"\r\n\
    Signature: old=:EapX26RbmWsmRo0hrlBKnfzIQq25z69O/tMHqHBfAn8=:\r\n\r\n\
    {\"hello\": \"world\"}";

const SIGNED_AGAIN: &[u8] = b"HTTP/1.1 200 OK\r\nContent-Length: 18\r\n\
    Content-Digest: sha-256=:X48E9qOokqqrvdts8nOJRJN3OWDUoyWxBf7kbu9DBPE=:, \
    sha-512=:WZDPaVn/7XgHaAy8pmojAkGWoRx2UFChF41A2svX+TaPm+AbwAgBWnrIiYllu7BNNyealdVLvRwEmTHWXvJw\
    ew==:\r\n\
    Signature-Input: old=(\"@status\");created=1618884473;keyid=\"test-shared-secret\"\r\n\
    Signature: old=:EapX26RbmWsmRo0hrlBKnfzIQq25z69O/tMHqHBfAn8=:\r\n\
    Signature-Input: new=(\"signature\";key=\"old\" \"content-digest\" \"@method\";req)\
    ;created=1618884473;keyid=\"test-shared-secret\"\r\n\
    Signature: new=:viNda9Qkhdkc9eqn4cSpT+ijVs2sqlLCek5sxUb1yO4=:\r\n\r\n\
    {\"hello\": \"world\"}";

// By the configured digest each wish is signed to the same.
const WISHED: [Wished; 5] = [
    Wished {
        conf: CONF_OF_DIGEST,
        request: b"GET / HTTP/1.1\r\nHost: h\r\nWant-Content-Digest: sha-512=3, sha-256=10\r\n\
            Accept-Signature: sig1=(\"@status\" \"content-digest\");created\r\n\r\n",
        response: HELLO,
        written: Ok(WITH_SHA_256),
    },
    Wished {
        conf: CONF_OF_DIGEST,
        request: BOTH,
        response: HELLO,
        written: Ok(WITH_BOTH),
    },
    Wished {
        conf: CONF,
        request: b"GET / HTTP/1.1\r\nHost: h\r\nWant-Content-Digest: sha-256=1\r\n\
            Accept-Signature: \
            new=(\"signature\";key=\"old\" \"content-digest\" \"@method\";req)\r\n\r\n",
        response: SIGNED_BEFORE,
        written: Ok(SIGNED_AGAIN),
    },
    Wished {
        conf: CONF_OF_DIGEST,
        request: b"GET / HTTP/1.1\r\nWant-Content-Digest: sha-256=1\r\n\
            Accept-Signature: a=(), b=(\"@status\" \"signature\")\r\n\r\n",
        response: b"HTTP/1.1 200\r\nSignature: (\r\n\r\n",
        written: Err((0, SignFault::SignatureMalformed)),
    },
    Wished {
        conf: CONF_OF_DIGEST,
        request: b"GET / HTTP/1.1\r\nWant-Content-Digest: sha-256=1\r\n\
            Accept-Signature: a=(), b=(\"@status\" \"signature\")\r\n\r\n",
        response: b"HTTP/1.1 200\r\n\r\n",
        written: Err((1, SignFault::SelfCover(1))),
    },
];

fn is_negotiated(alloc: Global, conf: &Conf, context: &Context<'_, '_>, row: &Wished) -> bool
    requires table { IsSome (meaning conf.now).sign }
    requires request { IsSome (context_of context.now).related }
    requires whole { HasWholeMessage (context_of context.now) }
{
    match negotiate(alloc, context, conf, MOMENT) {
        Ok(text) => row.written == Ok(text.bytes()),
        Err(NegotiateFault::Sign(index, fault)) => row.written == Err((index, fault)),
        Err(_) => false,
    }
}

// Whether each of what is asked for, signed in order, comes to the same.
fn is_each_signed(
    alloc: Global,
    context: &Context<'_, '_>,
    specs: &[SignSpec],
    row: &Wished,
) -> bool
    requires valid { All IsValidSpec specs.now }
    requires whole { HasWholeMessage (context_of context.now) }
{
    match sign_each(alloc, context, specs) {
        Ok(text) => row.written == Ok(text.bytes()),
        Err(EachFault::Sign(index, fault)) => row.written == Err((index, fault)),
        Err(EachFault::Memory) => false,
    }
}

fn are_wishes_signed(
    alloc: Global,
    conf: &Conf,
    request: &MessageView<'_>,
    context: &Context<'_, '_>,
    row: &Wished,
) -> bool
    requires table { IsSome (meaning conf.now).sign }
    requires whole { HasWholeMessage (context_of context.now) }
{
    match wanted(alloc, request, conf, MOMENT) {
        Ok(specs) => is_each_signed(alloc, context, specs.as_slice(), row),
        Err(_) => false,
    }
}

fn is_outcome(outcome: &Outcome, row: &Wished) -> bool {
    match outcome {
        Outcome::Done(output) => row.written == Ok(output.bytes()),
        _ => false,
    }
}

// The same of the command `sign`.
fn is_wished_outcome(
    alloc: Global,
    conf: &Conf,
    request: &MessageView<'_>,
    context: &Context<'_, '_>,
    row: &Wished,
) -> bool
    requires table { IsSome (meaning conf.now).sign }
    requires whole { HasWholeMessage (context_of context.now) }
{
    match wished_outcome(alloc, conf, MOMENT, request, context) {
        Ok(outcome) => is_outcome(&outcome, row),
        Err(Stop::Refused(_)) => row.written.is_err(),
        Err(_) => false,
    }
}

fn is_signed_for(
    alloc: Global,
    conf: &Conf,
    request: &MessageView<'_>,
    answer: &MessageView<'_>,
    row: &Wished,
) -> bool
    requires table { IsSome (meaning conf.now).sign }
    requires whole { IsMessage (is_head_request (message_in request.now).head.start)
        (message_in answer.now) }
{
    let context = Context {
        message: answer,
        related: Some(request),
        scheme: conf.scheme(),
        types: conf.types(),
    };
    is_negotiated(alloc, conf, &context, row)
        && are_wishes_signed(alloc, conf, request, &context, row)
        && is_wished_outcome(alloc, conf, request, &context, row)
}

fn is_response_signed(alloc: Global, conf: &Conf, request: &MessageView<'_>, row: &Wished) -> bool
    requires { IsSome (meaning conf.now).sign }
{
    match response(alloc, request, row.response) {
        Some(given) => is_signed_for(alloc, conf, request, &given.view, row),
        None => false,
    }
}

fn is_wished(alloc: Global, conf: &Conf, row: &Wished) -> bool
    requires { IsSome (meaning conf.now).sign }
{
    match message(alloc, row.request) {
        Some(given) => is_response_signed(alloc, conf, &given.view, row),
        None => false,
    }
}

fn is_wish_met(alloc: Global, row: &Wished) -> bool {
    match signing_conf(alloc, row.conf) {
        Some(given) => is_wished(alloc, &given.conf, row),
        None => false,
    }
}

#[test]
fn responses_are_signed_as_their_requests_ask(rt: HostRuntime) {
    for (index, row) in WISHED.iter().enumerate() {
        assert!(rt; is_wish_met(rt.alloc(), row), "at {index}");
    }
}

// Tests of component_values and of signature bases.

ghost use Rattle.std.specs.Prelude.{IsTrue};
ghost use Rattle.component_ids.specs.SignatureParams.{are_sig_params_in_range};

use crate::components::params_of;
use crate::given::{is_text, message};
use component_ids::{Scheme, SigParams, Types};
use component_values::{Context, Prepared, prepare};
use msg_body::MessageView;
use sfv_text::FedText;
use signatures::{base_bytes, feed_base};
use std::alloc::Global;

// The request and the response of RFC 9421 section 2.4.
const REQUEST: &[u8] = b"POST /foo?param=Value&Pet=dog HTTP/1.1\r\n\
Host: example.com\r\n\
Date: Tue, 20 Apr 2021 02:07:55 GMT\r\n\
Content-Digest: sha-512=:WZDPaVn/7XgHaAy8pmojAkGWoRx2UFChF41A2svX+TaPm+AbwAgBWnrIiYllu7BNNyealdVLvR\
wEmTHWXvJwew==:\r\n\
Content-Type: application/json\r\n\
Content-Length: 18\r\n\r\n\
{\"hello\": \"world\"}";

const RESPONSE: &[u8] = b"HTTP/1.1 503 Service Unavailable\r\n\
Date: Tue, 20 Apr 2021 02:07:56 GMT\r\n\
Content-Type: application/json\r\n\
Content-Length: 62\r\n\
Content-Digest: sha-512=:0Y6iCBzGg5rZtoXS95Ijz03mslf6KAMCloESHObfwnHJDbkkWWQz6PhhU9kxsTbARtY2PTBOzq\
24uJFpHsMuAg==:\r\n\r\n\
{\"busy\": true, \"message\": \"Your call is very important to us\"}";

// The signature parameters and the signature base of RFC 9421 section 2.4.
const PARAMS: &[u8] = b"(\"@status\" \"content-digest\" \"content-type\" \"@authority\";req \
\"@method\";req \"@path\";req \"content-digest\";req);\
created=1618884479;keyid=\"test-key-ecc-p256\"";

const BASE: &[u8] = b"\"@status\": 503\n\
\"content-digest\": sha-512=:0Y6iCBzGg5rZtoXS95Ijz03mslf6KAMCloESHObfwnHJDbkkWWQz6PhhU9kxsTbARt\
Y2PTBOzq24uJFpHsMuAg==:\n\
\"content-type\": application/json\n\
\"@authority\";req: example.com\n\
\"@method\";req: POST\n\
\"@path\";req: /foo\n\
\"content-digest\";req: sha-512=:WZDPaVn/7XgHaAy8pmojAkGWoRx2UFChF41A2svX+TaPm+AbwAgBWnrIiYllu7B\
NNyealdVLvRwEmTHWXvJwew==:\n\
\"@signature-params\": (\"@status\" \"content-digest\" \"content-type\" \"@authority\";req \
\"@method\";req \"@path\";req \"content-digest\";req);\
created=1618884479;keyid=\"test-key-ecc-p256\"";

// Whether the base is that of the RFC, made as a text and fed.
fn is_base(alloc: Global, prepared: &Prepared<'_, '_>) -> bool {
    let mut fed = FedText::new(alloc);
    feed_base(prepared, &mut fed);
    is_text(fed.into_text(), BASE) && is_text(base_bytes(alloc, prepared), BASE)
}

fn is_base_over(alloc: Global, context: &Context<'_, '_>, params: &SigParams) -> bool
    requires { IsTrue (are_sig_params_in_range params.now) }
{
    match prepare(alloc, context, params) {
        Ok(prepared) => is_base(alloc, &prepared),
        Err(_) => false,
    }
}

fn has_base(alloc: Global, context: &Context<'_, '_>) -> bool {
    match params_of(alloc, PARAMS) {
        Some(params) => is_base_over(alloc, context, &params),
        None => false,
    }
}

fn has_base_of(alloc: Global, request: &MessageView<'_>, response: &MessageView<'_>) -> bool {
    match Types::standard(alloc) {
        Ok(types) => {
            let context = Context {
                message: response,
                related: Some(request),
                scheme: Scheme::Https,
                types: &types,
            };
            has_base(alloc, &context)
        }
        Err(_) => false,
    }
}

fn is_answered(alloc: Global, request: &MessageView<'_>) -> bool {
    match message(alloc, RESPONSE) {
        Some(response) => has_base_of(alloc, request, &response.view),
        None => false,
    }
}

fn is_exchange(alloc: Global) -> bool {
    match message(alloc, REQUEST) {
        Some(request) => is_answered(alloc, &request.view),
        None => false,
    }
}

#[test]
fn the_base_of_a_response_is_that_of_the_rfc(rt: HostRuntime) {
    assert!(rt; is_exchange(rt.alloc()));
}

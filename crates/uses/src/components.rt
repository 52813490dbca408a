// Tests of derived_values.

ghost use Rattle.std.specs.Prelude.{IfSome, IsTrue};
ghost use Rattle.component_ids.specs.SignatureParams.{are_sig_params_in_range};

use crate::given::{is_text, message};
use component_ids::{ComponentId, Scheme, SigParams, read_params};
use derived_values::{Derived, derived_value};
use msg_body::MessageView;
use sfv_read::read_inner;
use sfv_text::FedText;
use std::alloc::Global;

// The signature parameters of the text.
pub(crate) fn params_of(alloc: Global, text: &[u8]) -> Option<SigParams>
    ensures { IfSome result (λ params. IsTrue (are_sig_params_in_range params)) }
{
    match read_inner(alloc, text) {
        Ok(list) => read_params(alloc, &list).ok(),
        Err(_) => None,
    }
}

// Whether these bytes are fed.
fn is_fed(alloc: Global, value: &Derived<'_>, wanted: &[u8]) -> bool {
    let mut fed = FedText::new(alloc);
    value.feed(&mut fed);
    is_text(fed.into_text(), wanted)
}

// Whether the message has this value of the derived component, or has none.
fn is_value(
    alloc: Global,
    message: &MessageView<'_>,
    id: &ComponentId,
    wanted: Option<&[u8]>,
) -> bool {
    match derived_value(alloc, message, Scheme::Https, id) {
        Ok(value) => match wanted {
            Some(bytes) => is_fed(alloc, &value, bytes),
            None => false,
        },
        Err(_) => wanted.is_none(),
    }
}

fn are_values(alloc: Global, message: &MessageView<'_>, ids: &[ComponentId]) -> bool {
    match ids {
        [authority, status] => {
            is_value(alloc, message, authority, Some(b"example.com"))
                && is_value(alloc, message, status, None)
        }
        _ => false,
    }
}

fn has_values(alloc: Global, message: &MessageView<'_>) -> bool {
    match params_of(alloc, br#"("@authority" "@status")"#) {
        Some(params) => are_values(alloc, message, params.ids.as_slice()),
        None => false,
    }
}

fn is_request(alloc: Global) -> bool {
    match message(alloc, b"GET http://EXAMPLE.com:80?a=1 HTTP/1.1\r\n\r\n") {
        Some(request) => has_values(alloc, &request.view),
        None => false,
    }
}

// The example of derived_values.
#[test]
fn a_request_has_an_authority_and_no_status(rt: HostRuntime) {
    assert!(rt; is_request(rt.alloc()));
}

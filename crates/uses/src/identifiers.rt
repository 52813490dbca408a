// Tests of component_ids.

ghost use Rattle.std.specs.Prelude.{IsTrue};
ghost use Rattle.component_ids.specs.Identifiers.{is_id_in_range};
ghost use Rattle.component_ids.specs.SignatureParams.{are_sig_params_in_range};

use crate::components::params_of;
use crate::given::is_text;
use component_ids::{ComponentId, FieldKind, ParamsText, SigParams, Types, print_id, print_params};
use sfv_text::{Params, Text};
use std::alloc::Global;

// Whether the signature parameters are copied and printed as the text.
fn are_printed(alloc: Global, params: &SigParams, text: &[u8]) -> bool
    requires { IsTrue (are_sig_params_in_range params.now) }
{
    match params.copy(alloc) {
        Ok(copy) => is_text(print_params(alloc, &copy), text),
        Err(_) => false,
    }
}

// Whether their text has that of the second identifier at its place.
fn has_second(alloc: Global, params: &SigParams, text: &[u8], second: &[u8]) -> bool
    requires { IsTrue (are_sig_params_in_range params.now) }
{
    if params.ids.len() < 2 {
        return false;
    }
    match ParamsText::of(alloc, params) {
        Ok(printed) => printed.text() == text && printed.id_text(1) == second,
        Err(_) => false,
    }
}

fn are_as_written(alloc: Global, text: &[u8], second: &[u8]) -> bool {
    match params_of(alloc, text) {
        Some(params) => {
            are_printed(alloc, &params, text) && has_second(alloc, &params, text, second)
        }
        None => false,
    }
}

// Whether an identifier is copied and printed as the text.
fn is_printed(alloc: Global, id: &ComponentId, text: &[u8]) -> bool
    requires { IsTrue (is_id_in_range id.now) }
{
    match id.copy(alloc) {
        Ok(copy) => is_text(print_id(alloc, &copy), text),
        Err(_) => false,
    }
}

fn is_identifier(alloc: Global) -> bool {
    match Text::from_bytes(alloc, b"a") {
        Ok(name) => {
            let id = ComponentId {
                name,
                params: Params::new(alloc),
            };
            is_printed(alloc, &id, br#""a""#)
        }
        Err(_) => false,
    }
}

// The example of component_ids.
#[test]
fn signature_parameters_and_identifiers_are_copied_and_printed(rt: HostRuntime) {
    let alloc = rt.alloc();
    assert!(rt; are_as_written(alloc, br#"("@method" "date");created=1"#, br#""date""#));
    assert!(rt; is_identifier(alloc));
}

// A name, and its kind where it is structured.
struct Kind {
    name: &'static [u8],
    kind: Option<FieldKind>,
}

// After `age` was added as an Item and `signature` as a List. The names are those of RFC 9421
// sections 4.1, 4.2 and 5.1 and of RFC 9530 section 2.
const KINDS: [Kind; 7] = [
    Kind {
        name: b"age",
        kind: Some(FieldKind::Item),
    },
    Kind {
        name: b"signature",
        kind: Some(FieldKind::List),
    },
    Kind {
        name: b"signature-input",
        kind: Some(FieldKind::Dictionary),
    },
    Kind {
        name: b"accept-signature",
        kind: Some(FieldKind::Dictionary),
    },
    Kind {
        name: b"content-digest",
        kind: Some(FieldKind::Dictionary),
    },
    Kind {
        name: b"date",
        kind: None,
    },
    Kind {
        name: b"Age",
        kind: None,
    },
];

fn are_kinds(types: &Types) -> bool {
    for row in &KINDS {
        if types.kind_of(row.name) != row.kind {
            return false;
        }
    }
    true
}

fn are_added(alloc: Global) -> bool {
    match Types::standard(alloc) {
        Ok(mut types) => {
            types.add(b"age", FieldKind::Item).is_ok()
                && types.add(b"signature", FieldKind::List).is_ok()
                && are_kinds(&types)
        }
        Err(_) => false,
    }
}

#[test]
fn a_field_has_the_kind_that_was_added_last(rt: HostRuntime) {
    assert!(rt; are_added(rt.alloc()));
}

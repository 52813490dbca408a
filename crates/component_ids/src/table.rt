//! The table of names and parameters (RFC 9421 sections 2.1, 2.2 and 2.4).

ghost use Rattle.std.specs.Prelude.{◌≡◌, ◌||◌, not, Some, None, option_map};
ghost use Rattle.std.specs.List.{find, list_any};
ghost use Rattle.component_ids.specs.Table.{is_listed, request_names, keys_of, has_value_type, has_param, have_clash, has_needed};
ghost use Rattle.component_ids.specs.Reasons.{applies, reasons};
ghost use Rattle.component_ids.specs.tools.Rows.{row_keys};

use crate::fault::BadReason;
use byte_grammar::{is_field_name, is_listed};
use sfv_text::{BareItem, Pair, Params};

/// A row of the table: which parameters go with a name.
#[derive(Clone, Copy)]
enum Row {
    /// A field name: `sf`, `key`, `bs`, `tr` and `req`.
    Field,
    /// A derived component of a request: `req`.
    Request,
    /// `@query-param`: `name` and `req`.
    QueryParam,
    /// `@status`: none.
    Status,
}

/// The derived components of a request without a parameter of their own.
const REQUEST_NAMES: [&[u8]; 7] = [
    b"@method",
    b"@target-uri",
    b"@authority",
    b"@scheme",
    b"@request-target",
    b"@path",
    b"@query",
];

fn is_request_name(name: &[u8]) -> bool
    ensures { result ≡ is_listed request_names name.now }
{
    is_listed(&REQUEST_NAMES, name)
}

/// The row of the name, where it has one.
fn row_of(name: &[u8]) -> Option<Row>
    ensures { option_map row_keys result ≡ keys_of name.now }
{
    if is_field_name(name) {
        return Some(Row::Field);
    }
    if is_request_name(name) {
        return Some(Row::Request);
    }
    if name == b"@query-param".as_slice() {
        return Some(Row::QueryParam);
    }
    if name == b"@status".as_slice() {
        return Some(Row::Status);
    }
    None
}

/// The keys of the parameters of a field.
const FIELD_KEYS: [&[u8]; 5] = [b"sf", b"key", b"bs", b"tr", b"req"];

/// The keys of the parameters of `@query-param`.
const QUERY_PARAM_KEYS: [&[u8]; 2] = [b"name", b"req"];

/// Whether a parameter of the key goes with the names of the row.
fn allows(row: Row, key: &[u8]) -> bool
    ensures { result ≡ is_listed (row_keys row) key.now }
{
    match row {
        Row::Field => is_listed(&FIELD_KEYS, key),
        Row::Request => key == b"req".as_slice(),
        Row::QueryParam => is_listed(&QUERY_PARAM_KEYS, key),
        Row::Status => false,
    }
}

fn has_unknown(row: Row, params: &Params) -> bool
    ensures { result ≡ list_any (λ p. not (is_listed (row_keys row) p.key)) params.now }
{
    params.iter().any(|param| !allows(row, param.key.bytes()))
}

/// The keys of the parameters that are Strings.
const STRING_KEYS: [&[u8]; 2] = [b"key", b"name"];

fn has_value_type(param: &Pair<BareItem>) -> bool
    ensures { result ≡ has_value_type param.now }
{
    if is_listed(&STRING_KEYS, param.key.bytes()) {
        param.value.is_string()
    } else {
        param.value.is_true()
    }
}

fn has_ill_typed(params: &Params) -> bool
    ensures { result ≡ list_any (λ p. not (has_value_type p)) params.now }
{
    params.iter().any(|param| !has_value_type(param))
}

/// Whether a parameter of the key is there.
pub fn has_param(params: &Params, key: &[u8]) -> bool
    ensures { result ≡ has_param params.now key.now }
{
    params.find(key).is_some()
}

fn have_clash(params: &Params) -> bool
    ensures { result ≡ have_clash params.now }
{
    has_param(params, b"bs") && (has_param(params, b"sf") || has_param(params, b"key"))
}

fn has_needed(name: &[u8], params: &Params) -> bool
    ensures { result ≡ has_needed name.now params.now }
{
    name != b"@query-param".as_slice() || has_param(params, b"name")
}

/// The least reason for which no component has the name with these parameters.
pub(crate) fn reason_against_name(name: &[u8], params: &Params) -> Option<BadReason>
    ensures { result ≡ find (applies name.now params.now) reasons }
{
    let Some(row) = row_of(name) else {
        return Some(BadReason::Name);
    };
    if has_unknown(row, params) {
        return Some(BadReason::ParameterUnknown);
    }
    if has_ill_typed(params) {
        return Some(BadReason::ParameterType);
    }
    if have_clash(params) {
        return Some(BadReason::ParametersClash);
    }
    if !has_needed(name, params) {
        return Some(BadReason::NameMissing);
    }
    None
}

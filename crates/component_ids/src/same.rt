//! Whether identifiers are the same.

ghost use Rattle.std.specs.Prelude.{◌≡◌, ◌↔◌, IsTrue, IfSome, IfNone};
ghost use Rattle.std.specs.List.{list_any};
ghost use Rattle.std.specs.Str.{bytes_eq};
ghost use Rattle.component_ids.specs.Causes.{IsFirstRepeated};
ghost use Rattle.component_ids.specs.Identifiers.{IsSameId, AreDistinct};
ghost use Rattle.component_ids.specs.Sameness.{is_among, are_among, is_same};

use crate::id::ComponentId;
use sfv_text::{BareItem, Pair, Params};

fn is_among(params: &Params, param: &Pair<BareItem>) -> bool
    ensures { result ≡ is_among params.now param.now }
{
    params.iter().any(|other| param.is_equal(other))
}

/// Whether each of the parameters is among the others.
fn are_among(others: &Params, params: &Params) -> bool
    ensures { result ≡ are_among others.now params.now }
{
    params.iter().all(|param| is_among(others, param))
}

/// Whether the names agree. The last bytes are compared first, in which most names differ.
fn is_same_name(a: &[u8], b: &[u8]) -> bool
    ensures { result ≡ bytes_eq a.now b.now }
{
    a.last() == b.last() && a == b
}

fn is_same(a: &ComponentId, b: &ComponentId) -> bool
    ensures { result ≡ is_same a.now b.now }
{
    is_same_name(a.name.bytes(), b.name.bytes())
        && are_among(&b.params, &a.params)
        && are_among(&a.params, &b.params)
}

/// Whether the names agree, and the parameters with their values in whatever order (RFC 9421
/// section 2). It takes no memory.
pub fn same_id(a: &ComponentId, b: &ComponentId) -> bool
    ensures { IsTrue result ↔ IsSameId a.now b.now }
{
    is_same(a, b)
}

/// Whether one of the earlier identifiers is the same.
fn is_repeated(earlier: &[ComponentId], id: &ComponentId) -> bool
    ensures { result ≡ list_any (λ other. is_same other id.now) earlier.now }
{
    earlier.iter().any(|other| is_same(other, id))
}

/// The index of the first identifier that is the same as an earlier one.
pub(crate) fn first_repeated(ids: &[ComponentId]) -> Option<usize>
    ensures some { IfSome result (λ index. IsFirstRepeated ids.now index) }
    ensures none { IfNone result (AreDistinct ids.now) }
{
    for (index, id) in ids.iter().enumerate() {
        if is_repeated(&ids[..index], id) {
            return Some(index);
        }
    }
    None
}

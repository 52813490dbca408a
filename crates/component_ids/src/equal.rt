//! Whether identifiers and signature parameters are equal, in all orders.

ghost use Rattle.std.specs.Prelude.{◌≡◌, ◌↔◌, IsTrue};

use crate::id::ComponentId;
use crate::params::SigParams;
use sfv_text::{BareItem, Pair};

/// Whether the parameters are equal, in one order.
fn are_equal_params(params: &[Pair<BareItem>], others: &[Pair<BareItem>]) -> bool
    ensures { IsTrue result ↔ (params.now ≡ others.now) }
{
    if params.len() != others.len() {
        return false;
    }
    for index in 0..params.len() {
        if !params[index].is_equal(&others[index]) {
            return false;
        }
    }
    true
}

/// Whether the identifiers are equal, in one order.
fn are_equal_ids(ids: &[ComponentId], others: &[ComponentId]) -> bool
    ensures { IsTrue result ↔ (ids.now ≡ others.now) }
{
    if ids.len() != others.len() {
        return false;
    }
    for index in 0..ids.len() {
        if !ids[index].is_equal(&others[index]) {
            return false;
        }
    }
    true
}

impl ComponentId {
    /// Whether the other has the same name and equal parameters in the same order. Identifiers that
    /// aren't equal may be the same (`same_id`).
    pub fn is_equal(&self, other: &ComponentId) -> bool
        ensures { IsTrue result ↔ (self.now ≡ other.now) }
    {
        self.name.bytes() == other.name.bytes()
            && are_equal_params(self.params.as_slice(), other.params.as_slice())
    }
}

impl SigParams {
    /// Whether the other covers equal components in the same order, with equal parameters of the
    /// signature in the same order. Then both have one strict text.
    pub fn is_equal(&self, other: &SigParams) -> bool
        ensures { IsTrue result ↔ (self.now ≡ other.now) }
    {
        are_equal_ids(self.ids.as_slice(), other.ids.as_slice())
            && are_equal_params(self.params.as_slice(), other.params.as_slice())
    }
}

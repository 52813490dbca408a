//! Prepared components.

ghost use Rattle.std.specs.Prelude.{◌≡◌, ◌↔◌, ◌<◌, ◌++◌, IsTrue, [], ℕ, List, length, slice_get, slice_index_or, Some, option_map};
ghost use Rattle.component_ids.specs.Identifiers.{id_text};
ghost use Rattle.component_ids.specs.SignatureParams.{sig_params_text};

use crate::plan::Plan;
use component_ids::{ParamsText, SigParams};
use sfv_text::{Absorb, Sequence};
use std::marker::Model;

/// The components that signature parameters cover, each with its value, and the text of the
/// signature parameters. A contract sees the signature parameters and the values.
#[derive(Drop)]
pub struct Prepared<'a, 'm> {
    pub(crate) params: &'a SigParams,
    pub(crate) plans: Sequence<Plan<'a, 'm>>,
    pub(crate) text: ParamsText,
}

impl<'a, 'm> Model for Prepared<'a, 'm> {
    ghost use Rattle.std.specs.Prelude.{◌≡◌, length, map};
    ghost use Rattle.component_ids.specs.Identifiers.{id_text};
    ghost use Rattle.component_ids.specs.SignatureParams.{sig_params_text};
    ghost use Rattle.component_values.specs.Views.{PreparedParts};
    ghost use Rattle.component_values.specs.tools.Rows.{planned_text};

    ghost Value = { PreparedParts };

    ghost view = { λ p. record {
      params = p.params.now;
      values = map planned_text p.plans;
    } };

    ghost invariant = { λ p. (p.text.ids ≡ map id_text p.params.now.ids)
        × (p.text.whole ≡ sig_params_text p.params.now)
        × (length p.plans ≡ length p.params.now.ids) };
}

impl<'a, 'm> Prepared<'a, 'm> {
    /// How many components there are.
    pub fn len(&self) -> usize
        ensures is { result ≡ length self.now.values }
        ensures each { result ≡ length self.now.params.ids }
    {
        self.plans.len()
    }

    /// Whether there is none.
    pub fn is_empty(&self) -> bool
        ensures { IsTrue result ↔ (self.now.values ≡ []) }
    {
        self.plans.is_empty()
    }

    /// The strict text of the component's identifier (RFC 9421 section 2.5).
    pub fn id_text(&self, index: usize) -> &[u8]
        requires { index < length self.now.params.ids }
        ensures { option_map id_text (slice_get self.now.params.ids index) ≡ Some result.now }
    {
        self.text.id_text(index)
    }

    /// The strict text of the signature parameters (RFC 9421 section 2.3).
    pub fn params_text(&self) -> &[u8]
        ensures { result.now ≡ sig_params_text self.now.params }
    {
        self.text.text()
    }

    /// Feeds the component's value.
    pub fn feed<A: Absorb>(&self, index: usize, into: &mut A)
        requires { index < length self.now.values }
        ensures { (text : List ℕ) → A.absorbed into.old text
            → A.absorbed into.new (text ++ slice_index_or self.now.values index []) }
    {
        self.plans.get(index).feed(into);
    }
}

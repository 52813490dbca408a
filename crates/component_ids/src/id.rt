//! Component identifiers.

ghost use Rattle.std.specs.Prelude.{◌≡◌, IfOk};

use sfv_text::{Memory, Params, Sequence, Text};
use std::alloc::Global;

/// A component identifier (RFC 9421 section 2).
#[derive(Debug, Drop)]
pub struct ComponentId {
    /// A field name in lower case, or the name of a derived component, as `@method`.
    pub name: Text,
    /// Those that go with the name, as `key` or `req`.
    pub params: Params,
}

/// Component identifiers, in order.
pub type Ids = Sequence<ComponentId>;

impl ComponentId {
    /// An equal identifier of its own.
    pub fn copy(&self, alloc: Global) -> Result<ComponentId, Memory>
        ensures { IfOk result (λ id. id ≡ self.now) }
    {
        Ok(ComponentId {
            name: self.name.copy(alloc)?,
            params: self.params.copy(alloc)?,
        })
    }
}

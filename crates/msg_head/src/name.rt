//! Names of fields.

ghost use Rattle.std.specs.Prelude.{◌≡◌};
ghost use Rattle.msg_head.specs.Views.{field_line_of};
ghost use Rattle.msg_head.specs.Names.{has_name};

use crate::line::LineView;
use line_index::lowers_to;

impl<'m> LineView<'m> {
    /// Whether the line's name in lower case is the name. So a name with a letter in upper case is
    /// no line's.
    pub fn is_named(self, name: &[u8]) -> bool
        ensures { result ≡ has_name name.now (field_line_of self.entry) }
    {
        lowers_to(self.name, name)
    }
}

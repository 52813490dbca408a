//! The field lines of a name.

ghost use Rattle.std.specs.Prelude.{◌≡◌, map};
ghost use Rattle.msg_head.specs.Views.{lines_of};
ghost use Rattle.msg_head.specs.Values.{value, values, is_there};
ghost use Rattle.framing.specs.tools.NamedLines.{HaveValues, are_named};

use msg_head::{HeadView, LineView, NamedFieldLines};

/// The field lines of a head that have a name.
#[derive(Clone, Copy)]
pub(crate) enum NamedLines<'m> {
    /// There is none.
    None,
    /// There is this one.
    One(LineView<'m>),
    /// There are two or more.
    Many,
}

impl<'m> NamedLines<'m> {
    // These lines of a name.
    fn of(mut lines: NamedFieldLines<'_, 'm>) -> NamedLines<'m>
        ensures { HaveValues result (map (λ line. value line.raw) lines.entry) }
    {
        let Some(line) = lines.next() else {
            return NamedLines::None;
        };
        match lines.next() {
            None => NamedLines::One(line),
            Some(_) => NamedLines::Many,
        }
    }

    /// The lines of the head that have the name, which is in lower case.
    pub(crate) fn find(head: &HeadView<'m>, name: &[u8]) -> NamedLines<'m>
        ensures values { HaveValues result (values (lines_of head.now) name.now) }
        ensures there { are_named result ≡ is_there (lines_of head.now) name.now }
    {
        NamedLines::of(head.lines_named(name))
    }

    /// Whether there is a line.
    pub(crate) fn are_some(self) -> bool
        ensures { result ≡ are_named self.entry }
    {
        match self {
            NamedLines::None => false,
            NamedLines::One(_) => true,
            NamedLines::Many => true,
        }
    }
}

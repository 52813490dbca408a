//! A recording, and its items one after the other.

use crate::item::Item;
use crate::read::{FIRST_LINE, moment_after, read_item};
use std::marker::Model;

/// A text that is a recording. It keeps no items: they are read from the text one at a time. A
/// contract sees it as their list.
#[derive(Drop)]
pub struct Recording<'r> {
    text: &'r [u8],
}

impl<'r> Model for Recording<'r> {
    ghost use Rattle.std.specs.Prelude.{List};
    ghost use Rattle.recording.specs.Items.{PlacedItem};
    ghost use Rattle.recording.specs.Recordings.{SpellsRecording};
    ghost use Rattle.recording.specs.tools.RecordingViews.{items_in};

    ghost Value = { List PlacedItem };

    ghost view = { λ r. items_in r.text.now };

    // The text spells the recording of these items.
    ghost invariant = { λ r. SpellsRecording r.text.now (items_in r.text.now) };
}

impl<'r> Recording<'r> {
    ghost use Rattle.std.specs.Prelude.{◌≡◌, ◌<◌, ◌^◌, List, length};
    ghost use Rattle.recording.specs.Items.{PlacedItem};
    ghost use Rattle.recording.specs.Recordings.{SpellsRecording};

    /// The recording that the text is.
    pub(crate) fn of(text: &'r [u8]) -> Recording<'r>
        requires { (items : List PlacedItem) × SpellsRecording text.now items }
        ensures { SpellsRecording text.now result }
    {
        Recording { text }
    }

    /// Its items, one after the other.
    pub fn items(&self) -> Items<'r>
        ensures all { result ≡ self.now }
        ensures few { length result < 2 ^ 63 }
    {
        Items {
            text: self.text,
            left: self.text.split_at(FIRST_LINE.len()).1,
            last: 0,
        }
    }
}

/// The items of a recording that are left, in order. A contract sees them as their list.
#[derive(Drop)]
pub struct Items<'r> {
    text: &'r [u8],
    // The text of the items that are left, and the last line.
    left: &'r [u8],
    // The last moment before them.
    last: u64,
}

impl<'r> Model for Items<'r> {
    ghost use Rattle.std.specs.Prelude.{List, ◌-◌, length};
    ghost use Rattle.recording.specs.Items.{PlacedItem};
    ghost use Rattle.recording.specs.tools.RecordingViews.{AreLeft, items_from};

    ghost Value = { List PlacedItem };

    ghost view = { λ s. items_from (length s.text.now - length s.left.now) s.last s.left.now };

    // What is left of the text spells them and the last line.
    ghost invariant = { λ s. AreLeft s.text.now s.last s.left.now };
}

impl<'r> Iterator for Items<'r> {
    ghost use Rattle.std.specs.Iterator.{YieldsFirstBy, item_count};
    ghost use Rattle.recording.specs.Items.{placed};

    type Item = Item<'r>;

    ghost next_gives = { YieldsFirstBy placed (λ items. items) };

    ghost remaining = { item_count (λ items. items) };

    fn next(&mut self) -> Option<Item<'r>> {
        let offset = (self.text.len() - self.left.len()) as u64;
        match read_item(self.last, self.left) {
            Ok((Some(body), rest)) => {
                self.last = moment_after(self.last, body);
                self.left = rest;
                Some(Item { offset, body })
            }
            Ok((None, _)) => None,
            // what is left of a recording is read
            Err(_) => unreachable!(),
        }
    }
}

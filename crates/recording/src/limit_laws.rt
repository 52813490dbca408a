//! The limits in numbers. The function does nothing; its contract is the law.

ghost use Rattle.std.specs.Prelude.{◌≡◌};

use crate::limits::{MAX_HOPS, MAX_ITEM_BYTES, MAX_ITEMS};
use crate::reader::MAX_PIECE_BYTES;

/// The limits of this crate are these numbers.
pub fn limits_are_these()
    ensures max_item_bytes { MAX_ITEM_BYTES ≡ 16_777_216 }
    ensures max_items { MAX_ITEMS ≡ 1_000_000 }
    ensures max_hops { MAX_HOPS ≡ 64 }
    ensures max_piece_bytes { MAX_PIECE_BYTES ≡ 4_096 }
{}

//! Why a reader inside a list of fields stopped.

ghost use Rattle.std.specs.Prelude.{◌≡◌};

use byte_grammar::{Left, Memory};

/// Why a reader stopped. A number is that of the bytes that were left: where it stopped, or before
/// the line.
#[derive(Clone, Copy)]
pub(crate) enum Stop {
    Left(usize),
    TooLong(usize),
}

impl From<Left> for Stop {
    ghost use Rattle.list_texts.specs.declared.stop.Stop.TheVariants as stop;

    ghost from_gives = { λ left s. s ≡ stop.Left left.0 };

    fn from(left: Left) -> Stop {
        Stop::Left(left.0)
    }
}

/// Why a reader that takes memory stopped.
#[derive(Clone, Copy)]
pub(crate) enum Halt {
    Memory,
    At(Stop),
}

impl From<Stop> for Halt {
    ghost use Rattle.list_texts.specs.declared.stop.Halt.TheVariants as halt;

    ghost from_gives = { λ stop h. h ≡ halt.At stop };

    fn from(stop: Stop) -> Halt {
        Halt::At(stop)
    }
}

impl From<Left> for Halt {
    ghost use Rattle.list_texts.specs.declared.stop.Stop.TheVariants as stop;
    ghost use Rattle.list_texts.specs.declared.stop.Halt.TheVariants as halt;

    ghost from_gives = { λ left h. h ≡ halt.At (stop.Left left.0) };

    fn from(left: Left) -> Halt {
        Halt::At(Stop::Left(left.0))
    }
}

impl From<Memory> for Halt {
    ghost use Rattle.list_texts.specs.declared.stop.Halt.TheVariants as halt;

    ghost from_gives = { λ _ h. h ≡ halt.Memory };

    fn from(_memory: Memory) -> Halt {
        Halt::Memory
    }
}

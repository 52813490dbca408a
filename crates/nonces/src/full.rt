//! A book that holds all that it can.

use std::error::Error;
use std::fmt;

/// The book holds as many entries as it can, and doesn't take another.
#[derive(Clone, Copy, Debug, PartialEq, Eq)]
pub struct Full;

impl fmt::Display for Full {
    ghost use Rattle.std.specs.Prelude.{Some, codes};

    ghost output = { λ _. Some (codes "the book of nonces is full") };

    fn fmt<W: fmt::Write>(&self, f: &mut fmt::Formatter<W>) -> fmt::Result {
        f.write_str("the book of nonces is full")
    }
}

impl Error for Full {}

//! What a run comes to, and what ends it before.

ghost use Rattle.std.specs.Prelude.{◌≡◌, IfOk};
ghost use Rattle.commands.specs.Outcome.{output_of, refusal_of, status_of};

use hms_io::Status;
use refusals::Refusal;
use sfv_text::{Memory, Text};
use std::alloc::Global;

/// What a run comes to.
#[derive(Drop)]
pub enum Outcome {
    /// What was asked for, which is the whole output.
    Done(Text),
    /// The same, where not every answer in it is `ok`.
    NotOk(Text),
    /// A refusal, whose line is the whole output.
    Refused(Refusal),
}

impl Outcome {
    /// The status that the process exits with.
    pub fn status(&self) -> Status
        ensures { result ≡ status_of self.now }
    {
        match self {
            Outcome::Done(_) => Status::Done,
            Outcome::NotOk(_) => Status::NotOk,
            Outcome::Refused(refusal) => refusal.status(),
        }
    }

    /// The whole output, and the refusal whose line it is, if it is one.
    pub fn into_parts(self, alloc: Global) -> Result<(Text, Option<Refusal>), Memory>
        ensures output { IfOk result (λ parts. parts.0 ≡ output_of self) }
        ensures refusal { IfOk result (λ parts. parts.1 ≡ refusal_of self) }
    {
        match self {
            Outcome::Done(text) => Ok((text, None)),
            Outcome::NotOk(text) => Ok((text, None)),
            Outcome::Refused(refusal) => {
                let line = refusal.line(alloc)?;
                Ok((line, Some(refusal)))
            }
        }
    }
}

//! What ends a run before it is done.

ghost use Rattle.std.specs.Prelude.{◌≡◌};
ghost use Rattle.refusals.specs.declared.refusal.CommandRefusal.TheVariants.{Digest, NotTaken};
ghost use Rattle.refusals.specs.declared.refusal.Refusal.TheVariants.{Command, Of};
ghost use Rattle.intake.specs.declared.stop.Stop.TheVariants.{Refused};
ghost use Rattle.intake.specs.Stops.{stop_of_fill, stop_of_file, stop_of_message};

use component_ids::IdFault;
use conf::ConfFault;
use field_lists::{FromFault, ToFault};
use hms_io::{FileError, FillError};
use hop_audit::{ChainFault, MAX_HOPS};
use list_texts::FieldsFault;
use msg_body::{MessageError, MessageFault};
use normal_forms::ExplainFault;
use recording::RecordingFault;
use refusals::{CommandRefusal, DigestRefusal, FileRefusal, Refusal, Role, StepRefusal};
use rewrite_script::{MAX_SCRIPT_BYTES, ScriptFault};
use rewrites::WalkFault;
use sfv_read::SfError;
use sfv_text::Memory;
use signing::WantFault;

/// What ends a run before it is done.
#[derive(Drop)]
pub enum Stop {
    /// No memory was found.
    Memory,
    /// A read of a file or of the input failed.
    ReadFault,
    /// The arguments, a text that the command reads, or the command is refused.
    Refused(Refusal),
}

impl Stop {
    /// The refusal of the text of this role.
    pub fn of_text(role: Role, refusal: FileRefusal) -> Stop
        ensures { result ≡ Refused (Of role refusal) }
    {
        Stop::Refused(Refusal::Of(role, refusal))
    }

    /// The refusal of a step.
    fn not_taken(cause: StepRefusal) -> Stop
        ensures { result ≡ Refused (Command (NotTaken cause)) }
    {
        Stop::Refused(Refusal::Command(CommandRefusal::NotTaken(cause)))
    }

    /// The refusal of a digest that isn't made.
    pub fn of_digest(cause: DigestRefusal) -> Stop
        ensures { result ≡ Refused (Command (Digest cause)) }
    {
        Stop::Refused(Refusal::Command(CommandRefusal::Digest(cause)))
    }

    /// What keeps the input from being read whole, of which this is the limit.
    pub fn of_fill(limit: usize, error: FillError) -> Stop
        ensures { result ≡ stop_of_fill limit error }
    {
        match error {
            FillError::Memory => Stop::Memory,
            FillError::Failed => Stop::ReadFault,
            FillError::TooLong => Stop::of_text(Role::Input, FileRefusal::TooLong(limit)),
        }
    }

    /// What keeps the file of this role from being taken, of which this is the limit.
    pub fn of_file(role: Role, limit: usize, error: FileError) -> Stop
        ensures { result ≡ stop_of_file role limit error }
    {
        match error {
            FileError::Memory => Stop::Memory,
            FileError::Failed => Stop::ReadFault,
            FileError::TooLong => Stop::of_text(role, FileRefusal::TooLong(limit)),
            FileError::Missing => Stop::of_text(role, FileRefusal::Missing),
        }
    }

    /// Why the text of this role is no message.
    pub fn of_message(role: Role, fault: MessageFault) -> Stop
        ensures { result ≡ stop_of_message role fault }
    {
        match fault {
            MessageFault::Refused(MessageError::Memory) => Stop::Memory,
            _ => Stop::of_text(role, FileRefusal::Message(fault)),
        }
    }
}

impl From<Memory> for Stop {
    ghost use Rattle.std.specs.Prelude.{◌≡◌};
    ghost use Rattle.intake.specs.declared.stop.Stop.TheVariants.{Memory as OutOfMemory};

    ghost from_gives = { λ _ stop. stop ≡ OutOfMemory };

    fn from(_memory: Memory) -> Stop {
        Stop::Memory
    }
}

/// A fault of PARAMS.
impl From<SfError> for Stop {
    ghost use Rattle.std.specs.Prelude.{◌≡◌};
    ghost use Rattle.intake.specs.Stops.{stop_of_error};

    ghost from_gives = { λ error stop. stop ≡ stop_of_error error };

    fn from(error: SfError) -> Stop {
        match error {
            SfError::Memory => Stop::Memory,
            SfError::Syntax(offset) => {
                Stop::Refused(Refusal::Command(CommandRefusal::Syntax(offset)))
            }
        }
    }
}

impl From<IdFault> for Stop {
    ghost use Rattle.std.specs.Prelude.{◌≡◌};
    ghost use Rattle.intake.specs.Stops.{stop_of_fault};

    ghost from_gives = { λ fault stop. stop ≡ stop_of_fault fault };

    fn from(fault: IdFault) -> Stop {
        match fault {
            IdFault::Memory => Stop::Memory,
            _ => Stop::Refused(Refusal::Command(CommandRefusal::Ids(fault))),
        }
    }
}

/// A fault of the configuration.
impl From<ConfFault> for Stop {
    ghost use Rattle.std.specs.Prelude.{◌≡◌};
    ghost use Rattle.intake.specs.Stops.{stop_of_conf};

    ghost from_gives = { λ fault stop. stop ≡ stop_of_conf fault };

    fn from(fault: ConfFault) -> Stop {
        match fault {
            ConfFault::Memory => Stop::Memory,
            _ => Stop::of_text(Role::Conf, FileRefusal::Conf(fault)),
        }
    }
}

/// A fault of the script.
impl From<ScriptFault> for Stop {
    ghost use Rattle.std.specs.Prelude.{◌≡◌};
    ghost use Rattle.intake.specs.Stops.{stop_of_script};

    ghost from_gives = { λ fault stop. stop ≡ stop_of_script fault };

    fn from(fault: ScriptFault) -> Stop {
        match fault {
            ScriptFault::Memory => Stop::Memory,
            _ => Stop::of_text(Role::Script, FileRefusal::Script(fault)),
        }
    }
}

/// A fault of the recording.
impl From<RecordingFault> for Stop {
    ghost use Rattle.std.specs.Prelude.{◌≡◌};
    ghost use Rattle.intake.specs.Stops.{stop_of_recording};

    ghost from_gives = { λ fault stop. stop ≡ stop_of_recording fault };

    fn from(fault: RecordingFault) -> Stop {
        match fault {
            RecordingFault::Memory => Stop::Memory,
            _ => Stop::of_text(Role::Input, FileRefusal::Recording(fault)),
        }
    }
}

/// A fault of the chain.
impl From<ChainFault> for Stop {
    ghost use Rattle.std.specs.Prelude.{◌≡◌};
    ghost use Rattle.intake.specs.Stops.{stop_of_chain};

    ghost from_gives = { λ fault stop. stop ≡ stop_of_chain fault };

    fn from(fault: ChainFault) -> Stop {
        match fault {
            ChainFault::Memory => Stop::Memory,
            ChainFault::Order(offset) => Stop::of_text(Role::Input, FileRefusal::Order(offset)),
            ChainFault::TooManyHops => {
                Stop::of_text(Role::Input, FileRefusal::TooManyHops(MAX_HOPS))
            }
            ChainFault::Message(index, fault) => {
                Stop::of_text(Role::Item(index), FileRefusal::Message(fault))
            }
            ChainFault::Script(index, fault) => {
                Stop::of_text(Role::Item(index), FileRefusal::Script(fault))
            }
            ChainFault::ScriptTooLong(index) => {
                Stop::of_text(Role::Item(index), FileRefusal::TooLong(MAX_SCRIPT_BYTES))
            }
        }
    }
}

/// A fault of the wishes for signatures.
impl From<WantFault> for Stop {
    ghost use Rattle.std.specs.Prelude.{◌≡◌};
    ghost use Rattle.intake.specs.Stops.{stop_of_want};

    ghost from_gives = { λ fault stop. stop ≡ stop_of_want fault };

    fn from(fault: WantFault) -> Stop {
        match fault {
            WantFault::Memory => Stop::Memory,
            _ => Stop::Refused(Refusal::Command(CommandRefusal::Wishes(fault))),
        }
    }
}

/// A step of a script that isn't taken, by its index.
impl From<WalkFault> for Stop {
    ghost use Rattle.std.specs.Prelude.{◌≡◌};
    ghost use Rattle.intake.specs.Stops.{stop_of_walk};

    ghost from_gives = { λ fault stop. stop ≡ stop_of_walk fault };

    fn from(fault: WalkFault) -> Stop {
        match fault {
            WalkFault::Memory => Stop::Memory,
            WalkFault::Unjudged(_) => Stop::not_taken(StepRefusal::LabelUnread),
            WalkFault::NotApplicable(index) => Stop::not_taken(StepRefusal::NotApplicable(index)),
            WalkFault::NotPermitted(index) => Stop::not_taken(StepRefusal::NotPermitted(index)),
        }
    }
}

/// Why two records of a message aren't explained.
impl From<ExplainFault> for Stop {
    ghost use Rattle.std.specs.Prelude.{◌≡◌};
    ghost use Rattle.intake.specs.Stops.{stop_of_explain};

    ghost from_gives = { λ fault stop. stop ≡ stop_of_explain fault };

    fn from(fault: ExplainFault) -> Stop {
        match fault {
            ExplainFault::Memory => Stop::Memory,
            _ => Stop::Refused(Refusal::Command(CommandRefusal::Explain(fault))),
        }
    }
}

/// A fault of the list of fields.
impl From<FieldsFault> for Stop {
    ghost use Rattle.std.specs.Prelude.{◌≡◌};
    ghost use Rattle.intake.specs.Stops.{stop_of_fields};

    ghost from_gives = { λ fault stop. stop ≡ stop_of_fields fault };

    fn from(fault: FieldsFault) -> Stop {
        match fault {
            FieldsFault::Memory => Stop::Memory,
            _ => Stop::of_text(Role::Input, FileRefusal::Fields(fault)),
        }
    }
}

/// Why a list of fields is turned into no message.
impl From<ToFault> for Stop {
    ghost use Rattle.std.specs.Prelude.{◌≡◌};
    ghost use Rattle.intake.specs.Stops.{stop_of_to};

    ghost from_gives = { λ fault stop. stop ≡ stop_of_to fault };

    fn from(fault: ToFault) -> Stop {
        match fault {
            ToFault::Memory => Stop::Memory,
            _ => Stop::Refused(Refusal::Command(CommandRefusal::ToMessage(fault))),
        }
    }
}

/// Why a message is turned into no list of fields.
impl From<FromFault> for Stop {
    ghost use Rattle.std.specs.Prelude.{◌≡◌};
    ghost use Rattle.intake.specs.Stops.{stop_of_from};

    ghost from_gives = { λ fault stop. stop ≡ stop_of_from fault };

    fn from(fault: FromFault) -> Stop {
        match fault {
            FromFault::Memory => Stop::Memory,
            _ => Stop::Refused(Refusal::Command(CommandRefusal::FromMessage(fault))),
        }
    }
}

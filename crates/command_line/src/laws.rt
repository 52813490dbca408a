//! Laws of commands. Each function does nothing; its contract is the law.

ghost use Rattle.command_line.specs.Laws.{HasOneCommand, HasCommandOrNone, IsSampleBounded};

/// Arguments spell at most one command.
pub fn arguments_have_one_command()
    ensures { HasOneCommand }
{}

/// Arguments spell some command or none.
pub fn arguments_are_a_command_or_none()
    ensures { HasCommandOrNone }
{}

/// The seed of a sample and the number of its hops are bounded.
pub fn a_sample_is_bounded()
    ensures { IsSampleBounded }
{}

//! The command `sample`: the summary of the report on a chain that is drawn from a seed.

ghost use Rattle.std.specs.Prelude.{◌<◌, ◌≤◌};
ghost use Rattle.recording.specs.declared.limits.TheConstants.{MAX_HOPS};
ghost use Rattle.commands.specs.Sample.{ReportsSample};
ghost use Rattle.commands.specs.Outcome.{IfOutcome, ReadsNothing};

use crate::outcome::Outcome;
use intake::Stop;
use samples::{append_summary, sample};
use sfv_text::Text;
use std::alloc::Global;

/// The summary of the report on the chain of this seed, with so many hops.
pub fn sample_outcome(alloc: Global, seed: u64, count: usize) -> Result<Outcome, Stop>
    requires seed { seed < 1_000_000_000 }
    requires count { count ≤ MAX_HOPS }
    ensures report { IfOutcome result (ReportsSample seed count) }
    ensures reads_nothing { ReadsNothing result }
{
    let summary = sample(alloc, seed, count)?;
    let mut text = Text::new(alloc);
    append_summary(alloc, &summary, &mut text)?;
    Ok(if summary.finds_fault {
        Outcome::NotOk(text)
    } else {
        Outcome::Done(text)
    })
}

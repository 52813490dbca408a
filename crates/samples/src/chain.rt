//! The chain of a sample, and its audit.

ghost use Rattle.std.specs.Prelude.{◌≡◌, ◌≤◌, ◌<◌, ℕ, List, length, IfOk};
ghost use Rattle.msg_body.specs.Messages.{message_text};
ghost use Rattle.settings.specs.ConfMeaning.{meaning};
ghost use Rattle.hop_audit.specs.Report.{IsReport};
ghost use Rattle.recording.specs.Items.{PlacedItem};
ghost use Rattle.recording.specs.RecordedChains.{IsHeldChain};
ghost use Rattle.recording.specs.Recordings.{bodies};
ghost use Rattle.recording.specs.declared.limits.TheConstants.{MAX_HOPS};
ghost use Rattle.samples.specs.Requests.{sample_configuration};
ghost use Rattle.samples.specs.Scripts.{scripts_from};
ghost use Rattle.samples.specs.Summary.{IsSample, last_from};
ghost use Rattle.samples.specs.tools.Made.{AreMadeFrom, AreRecorded, IsMade, SpellsSample, chain_made, items_made};

use crate::conf::sample_conf;
use crate::draws::Draws;
use crate::hop::{MadeHop, taken};
use crate::limits::MOMENT;
use crate::request::signed_request;
use crate::script::hop_script;
use crate::summary::{Summary, summary_of};
use hop_audit::{AuditReport, ChainFault, audit_chain};
use recording::{RecordedChain, RecordedHop, Subject};
use rewrite_script::print_script;
use settings::Conf;
use sfv_text::{Memory, Sequence, Text};
use std::alloc::Global;

/// The hops, of which the first leads from the signed request of this text.
fn hops_from(
    alloc: Global,
    conf: &Conf,
    first: &Text,
    seed: u64,
    count: usize,
) -> Result<Sequence<MadeHop>, Memory>
    requires conf { meaning conf.now ≡ sample_configuration }
    requires signed { SpellsSample seed first.now }
    ensures { (own : SpellsSample seed first.now)
        → IfOk result (AreMadeFrom own.signed (scripts_from seed count)) }
{
    let mut draws = Draws { state: seed };
    let mut hops = Sequence::new(alloc);
    let mut text = first.copy(alloc)?;
    for _ in 0..count {
        let steps = hop_script(alloc, &mut draws)?;
        let script = print_script(alloc, steps.as_slice())?;
        text = taken(alloc, conf, &text, steps.as_slice())?;
        let message = text.copy(alloc)?;
        hops.push(MadeHop { script, message })?;
    }
    Ok(hops)
}

/// The hops as they are recorded. Each has two items; two come before them all.
fn recorded_hops<'t>(
    alloc: Global,
    hops: &'t [MadeHop],
) -> Result<Sequence<RecordedHop<'t>>, Memory>
    requires { length hops.now ≤ MAX_HOPS }
    ensures { IfOk result (AreRecorded 2 hops.now) }
{
    let mut recorded = Sequence::new(alloc);
    for (count, hop) in hops.iter().enumerate() {
        recorded.push(RecordedHop {
            moment: None,
            item: 2 * count + 2,
            script: hop.script.bytes(),
            message: hop.message.bytes(),
        })?;
    }
    Ok(recorded)
}

/// The chain of these texts as it is recorded, of which the first item is a moment.
fn recorded<'t>(
    alloc: Global,
    first: &'t Text,
    hops: &'t [MadeHop],
) -> Result<RecordedChain<'t>, Memory>
    requires { length hops.now ≤ MAX_HOPS }
    ensures { (items : List PlacedItem) → bodies items ≡ items_made first.now hops.now
        → IfOk result (IsHeldChain items) }
{
    let hops = recorded_hops(alloc, hops)?;
    Ok(RecordedChain {
        moment: MOMENT,
        subject: Subject::Requests,
        item: 1,
        first: first.bytes(),
        hops,
    })
}

/// The report on the chain of these texts.
fn report_on(
    alloc: Global,
    conf: &Conf,
    first: &Text,
    hops: &[MadeHop],
) -> Result<AuditReport, Memory>
    requires conf { meaning conf.now ≡ sample_configuration }
    requires made { (seed count : ℕ) × (count ≤ MAX_HOPS) × IsMade seed count first.now hops.now }
    ensures { (seed count : ℕ) → count ≤ MAX_HOPS → (is : IsMade seed count first.now hops.now)
        → IfOk result (IsReport sample_configuration (chain_made is)) }
{
    let chain = recorded(alloc, first, hops)?;
    match audit_chain(alloc, &chain, conf) {
        Ok(lines) => Ok(lines),
        Err(fault) => match fault {
            ChainFault::Memory => Err(Memory),
            // items that are a chain have a report, and no fault
            _ => unreachable!(),
        },
    }
}

/// The message of the last hop, or the first message where there is no hop.
fn last_of<'t>(first: &'t Text, hops: &'t [MadeHop]) -> &'t [u8]
    ensures { (seed count : ℕ) → (is : IsMade seed count first.now hops.now)
        → result.now ≡ message_text (last_from (chain_made is).message (chain_made is).hops) }
{
    match hops.last() {
        Some(hop) => hop.message.bytes(),
        None => first.bytes(),
    }
}

/// The same as `sample`, by the configuration of a sample.
fn sample_by(alloc: Global, conf: &Conf, seed: u64, count: usize) -> Result<Summary, Memory>
    requires conf { meaning conf.now ≡ sample_configuration }
    requires seed { seed < 1_000_000_000 }
    requires count { count ≤ MAX_HOPS }
    ensures { IfOk result (IsSample seed count) }
{
    let first = signed_request(alloc, conf, seed)?;
    let made = hops_from(alloc, conf, &first, seed, count)?;
    let hops = made.as_slice();
    let lines = report_on(alloc, conf, &first, hops)?;
    let last = last_of(&first, hops);
    Ok(summary_of(lines.as_slice(), hops.len(), last.len()))
}

/// Makes the chain of the seed with so many hops, audits it, and counts what its report says.
///
/// The request is signed at `MOMENT` with the key `sample`, and each hop has three steps.
pub fn sample(alloc: Global, seed: u64, count: usize) -> Result<Summary, Memory>
    requires seed { seed < 1_000_000_000 }
    requires count { count ≤ MAX_HOPS }
    ensures { IfOk result (IsSample seed count) }
{
    let conf = sample_conf(alloc)?;
    sample_by(alloc, &conf, seed, count)
}

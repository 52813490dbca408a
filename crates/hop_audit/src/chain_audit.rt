//! The audit of a recorded chain.

ghost use Rattle.std.specs.Prelude.{◌≡◌, ◌≢◌, List, IfOk, IsTrue};
ghost use Rattle.std.specs.List.{All};
ghost use Rattle.byte_grammar.specs.Causes.{AnswersWhere};
ghost use Rattle.settings.specs.ConfMeaning.{meaning};
ghost use Rattle.hop_audit.specs.ChainFaults.{IsChainFault};
ghost use Rattle.recording.specs.Recordings.{AreItems, bodies};
ghost use Rattle.recording.specs.Items.{IsShort, PlacedItem};
ghost use Rattle.recording.specs.RecordedChains.{IsHeldChain};
ghost use Rattle.hop_audit.specs.Lines.{are_lines_in_range};
ghost use Rattle.hop_audit.specs.Report.{IsAudit};
ghost use Rattle.hop_audit.specs.declared.fault.ChainFault.{ChainFault};
ghost use Rattle.hop_audit.specs.tools.Judged.{IsHeldFor, SaysRelated, SaysReport};

use crate::fault::ChainFault;
use crate::hop_lines::add_hop_lines;
use crate::line::AuditReport;
use crate::order::chain_of;
use crate::read::{item_message, item_script, reading_of};
use crate::stage::Stage;
use msg_body::{MessageView, Reading};
use recording::{RecordedChain, RecordedHop, Recording, Role, Subject, role_of};
use settings::Conf;
use signatures::Exchange;
use std::alloc::Global;

/// The request that the messages answer, where it is recorded.
fn related_request<'r>(
    alloc: Global,
    chain: &RecordedChain<'r>,
) -> Result<Option<MessageView<'r>>, ChainFault>
    requires { IsHeldFor chain.now }
    ensures { SaysRelated chain.now result }
{
    match chain.subject {
        Subject::Responses(Some(text)) => {
            let reading = reading_of(None, Role::Related);
            let request = item_message(alloc, chain.item - 1, reading, text)?;
            Ok(Some(request))
        }
        Subject::Responses(None) | Subject::Requests => Ok(None),
    }
}

/// The parts of an audit: how its messages are read, and what they are judged by.
#[derive(Drop)]
struct ChainAudit<'a, 'r> {
    conf: &'a Conf,
    related: Option<&'a MessageView<'r>>,
    reading: Reading,
}

impl<'a, 'r> ChainAudit<'a, 'r> {
    ghost use Rattle.std.specs.Prelude.{◌≡◌, ◌≤◌, length};
    ghost use Rattle.component_values.specs.Context.{answers_head};
    ghost use Rattle.msg_body.specs.declared.limits.TheConstants.{MAX_MESSAGE_BYTES};
    ghost use Rattle.nonces.specs.declared.limits.TheConstants.{MAX_MOMENT};
    ghost use Rattle.recording.specs.Chains.{role_of};
    ghost use Rattle.recording.specs.RecordedChains.{subject_meant};
    ghost use Rattle.hop_audit.specs.ChainValues.{AnswersRequest, reading_of};
    ghost use Rattle.hop_audit.specs.tools.Judged.{IsHeldFor, IsSizedHop, IsStageIn, SaysFirst, SaysNext, SaysReport, SaysStage, related_of};

    /// The parts for the messages of a chain, which are these.
    fn of(
        conf: &'a Conf,
        related: Option<&'a MessageView<'r>>,
        subject: Subject<'_>,
    ) -> ChainAudit<'a, 'r>
        ensures conf { result.conf ≡ conf.entry }
        ensures related { result.related ≡ related.entry }
        ensures reading { result.reading
            ≡ reading_of (related_of result) (role_of (subject_meant subject.entry)) }
    {
        ChainAudit {
            conf,
            related,
            reading: reading_of(related, role_of(subject)),
        }
    }

    /// The message of the item with this index, at this moment.
    fn stage(
        &self,
        alloc: Global,
        item: usize,
        moment: u64,
        text: &'r [u8],
    ) -> Result<Stage<'a, 'r>, ChainFault>
        requires sized { length text.now ≤ MAX_MESSAGE_BYTES }
        requires now { moment ≤ MAX_MOMENT }
        requires reading { self.now.reading.to_head ≡ answers_head (related_of self.now) }
        ensures { SaysStage self.now item moment text.now result }
    {
        let message = item_message(alloc, item, self.reading, text)?;
        let exchange = Exchange::of(alloc, message, self.related, self.conf);
        Ok(Stage::of(alloc, self.conf, moment, exchange)?)
    }

    /// Adds the lines of the first message of the chain.
    fn first(
        &self,
        alloc: Global,
        chain: &RecordedChain<'r>,
        lines: &mut AuditReport,
    ) -> Result<Stage<'a, 'r>, ChainFault>
        requires held { IsHeldFor chain.now }
        requires reading { self.now.reading.to_head ≡ answers_head (related_of self.now) }
        ensures { SaysFirst self.now chain.now lines.old lines.new result }
    {
        let mut stage = self.stage(alloc, chain.item, chain.moment, chain.first)?;
        stage.add_lines(alloc, 0, lines)?;
        Ok(stage)
    }

    /// Adds the lines of the hop with this index, and those of the message after it.
    fn next(
        &self,
        alloc: Global,
        index: usize,
        before: &mut Stage<'a, 'r>,
        hop: &RecordedHop<'r>,
        lines: &mut AuditReport,
    ) -> Result<Stage<'a, 'r>, ChainFault>
        requires stage { IsStageIn self.now before.old }
        requires reading { self.now.reading.to_head ≡ answers_head (related_of self.now) }
        requires sized { IsSizedHop hop.now }
        ensures { SaysNext self.now index before.old hop.now lines.old lines.new result }
    {
        let moment = hop.moment.unwrap_or(before.moment);
        let script = item_script(alloc, hop.item, hop.script)?;
        let mut after = self.stage(alloc, hop.item + 1, moment, hop.message)?;
        add_hop_lines(alloc, index, before, script.as_slice(), &mut after, lines)?;
        after.add_lines(alloc, index, lines)?;
        Ok(after)
    }

    /// The lines of the chain.
    fn report(&self, alloc: Global, chain: &RecordedChain<'r>) -> Result<AuditReport, ChainFault>
        requires held { IsHeldFor chain.now }
        requires related { AnswersRequest (subject_meant chain.now.subject) (related_of self.now) }
        requires reading { self.now.reading
            ≡ reading_of (related_of self.now) (role_of (subject_meant chain.now.subject)) }
        ensures { SaysReport self.now chain.now result }
    {
        let mut lines = AuditReport::new(alloc);
        let mut reached = self.first(alloc, chain, &mut lines)?;
        for (count, hop) in chain.hops.as_slice().iter().enumerate() {
            reached = self.next(alloc, count + 1, &mut reached, hop, &mut lines)?;
        }
        Ok(lines)
    }
}

/// Audits the chain: the verdict on each label of each message, and of each hop whether its script
/// explains what came out, and for each label whether its signature permits that and what becomes
/// of it (RFC 9421 sections 1.1 and 3.2).
///
/// The chain is that of items such as a recording has: each is within its limits. Each message is
/// read once; two are held beside the chain. A fault is one of a message or of a script.
pub fn audit_chain(
    alloc: Global,
    chain: &RecordedChain<'_>,
    conf: &Conf,
) -> Result<AuditReport, ChainFault>
    requires { (items : List PlacedItem) × IsHeldChain items chain.now
        × AreItems (bodies items) × All IsShort (bodies items) }
    ensures report { (items : List PlacedItem) → IsHeldChain items chain.now
        → IfOk result (IsAudit (meaning conf.now) items) }
    ensures in_range { IfOk result (λ lines. IsTrue (are_lines_in_range lines)) }

    // The first fault whose cause holds is answered, and no other.
    ensures fault { (items : List PlacedItem) → IsHeldChain items chain.now
        → (fault : ChainFault) → fault ≢ ChainFault.Memory
        → AnswersWhere ChainFault.Memory result fault (IsChainFault items fault) }
{
    let related = related_request(alloc, chain)?;
    let audit = ChainAudit::of(conf, related.as_ref(), chain.subject);
    audit.report(alloc, chain)
}

/// Audits the chain that the items of a recording are.
///
/// The items are such as a recording has: the first is a moment, and each is within its limits.
pub fn audit(
    alloc: Global,
    recording: &Recording<'_>,
    conf: &Conf,
) -> Result<AuditReport, ChainFault>
    requires are { AreItems (bodies recording.now) }
    requires short { All IsShort (bodies recording.now) }
    ensures report { IfOk result (IsAudit (meaning conf.now) recording.now) }
    ensures in_range { IfOk result (λ lines. IsTrue (are_lines_in_range lines)) }

    // The first fault whose cause holds is answered, and no other.
    ensures fault { (fault : ChainFault) → fault ≢ ChainFault.Memory
        → AnswersWhere ChainFault.Memory result fault
        (IsChainFault recording.now fault) }
{
    let chain = chain_of(alloc, recording)?;
    audit_chain(alloc, &chain, conf)
}

//! A message of a chain as it is audited.

use crate::known_tags::{KnownTags, known_after, known_of};
use crate::line::{AuditLine, AuditReport};
use nonces::Steps;
use settings::Conf;
use sfv_text::{Memory, Pairs, Text};
use signatures::{Exchange, MessageSignatures};
use std::alloc::Global;
use std::marker::{Brand, Model};
use std::sync::ledger::{Blank, Ledger};
use verdicts::{SignedLabel, Verdict, Verifier};

/// A message of a chain with its moment, all that is read of it, each part once, and what is known
/// of the tags of its labels. A contract sees what its labels are judged by.
pub(crate) struct Stage<'a, 'r> {
    conf: &'a Conf,
    /// In seconds since the epoch.
    pub(crate) moment: u64,
    pub(crate) exchange: Exchange<'a, 'r>,
    pub(crate) signatures: MessageSignatures,
    pub(crate) known: KnownTags,
}

// Dropped by one call: each function that holds a stage would else drop each of its parts in turn,
// at each of its ends, and be proved so.
impl<'a, 'r> Drop for Stage<'a, 'r> {
    fn drop(self) {
        let Stage {
            conf: _,
            moment: _,
            exchange: _,
            signatures: _,
            known: _,
        } = self;
    }
}

impl<'a, 'r> Model for Stage<'a, 'r> {
    ghost use Rattle.std.specs.Coded.{codes};
    ghost use Rattle.component_ids.specs.tools.Kinds.{kinds_code};
    ghost use Rattle.settings.specs.ConfMeaning.{meaning};
    ghost use Rattle.settings.specs.tools.KeyEntries.{keys_code};
    ghost use Rattle.hop_audit.specs.tools.Stages.{IsStage, StageState};

    ghost Value = { StageState };

    ghost coded = { Prim.hlevel (codes, kinds_code, keys_code) };

    ghost view = { λ s. record {
      conf = meaning s.conf.now;
      moment = s.moment;
      context = s.exchange.context;
    } };

    ghost invariant = { λ s.
        IsStage (meaning s.conf.now) s.moment s.exchange.context s.signatures s.known };
}

impl<'a, 'r> Stage<'a, 'r> {
    ghost use Rattle.std.specs.Prelude.{◌≡◌, ◌≤◌, ◌<◌, IfOk, IsTrue, OnOk};
    ghost use Rattle.component_values.specs.Context.{HasWholeMessage};
    ghost use Rattle.nonces.specs.declared.limits.TheConstants.{MAX_MOMENT};
    ghost use Rattle.settings.specs.ConfMeaning.{meaning};
    ghost use Rattle.verdicts.specs.Verdicts.{IsVerdict, is_verdict_in_range};
    ghost use Rattle.hop_audit.specs.tools.Stages.{judged};
    ghost use Rattle.hop_audit.specs.tools.Written.{AddsMessageLine, AddsMessageLines};

    /// The exchange at this moment. Nothing is known of its tags.
    pub(crate) fn of(
        alloc: Global,
        conf: &'a Conf,
        moment: u64,
        exchange: Exchange<'a, 'r>,
    ) -> Result<Stage<'a, 'r>, Memory>
        requires whole { HasWholeMessage exchange.context }
        requires now { moment ≤ MAX_MOMENT }
        ensures { IfOk result (λ stage. stage ≡ record {
          conf = meaning conf.now;
          moment = moment;
          context = exchange.entry.context;
        }) }
    {
        let mut exchange = exchange;
        let signatures = exchange.signatures(alloc)?;
        Ok(Stage {
            conf,
            moment,
            exchange,
            signatures,
            known: Pairs::new(alloc),
        })
    }

    /// The verdict on the label. No nonce is remembered.
    fn verdict<L: Ledger>(
        &mut self,
        alloc: Global,
        label: &[u8],
        steps: &mut Steps<L>,
    ) -> Result<Verdict, Memory>
        ensures is { IfOk result (IsVerdict (judged self.old label.now)) }
        ensures in_range { IfOk result (λ verdict. IsTrue (is_verdict_in_range verdict)) }
        ensures same { self.new ≡ self.old }
    {
        let verifier = Verifier {
            conf: self.conf,
            moment: self.moment,
            seen: None,
        };
        match self.signatures.find(label) {
            Some(read) => {
                let is_right = known_of(&self.known, label);
                let signed = SignedLabel {
                    label,
                    read,
                    is_right,
                };
                verifier.verdict_on(alloc, &mut self.exchange, &signed, steps)
            }
            None => verifier.verdict(alloc, &mut self.exchange, label, steps),
        }
    }

    /// Adds the line of the label of the message with this index.
    fn add_line<L: Ledger>(
        &mut self,
        alloc: Global,
        index: usize,
        label: Text,
        steps: &mut Steps<L>,
        lines: &mut AuditReport,
    ) -> Result<(), Memory>
        ensures line { OnOk result
            (AddsMessageLine (judged self.old label) index lines.old lines.new) }
        ensures same { self.new ≡ self.old }
    {
        let verdict = self.verdict(alloc, label.bytes(), steps)?;
        lines.push(AuditLine::Message {
            index,
            label,
            verdict,
        })
    }

    /// Adds a line for each label, or for `-`, which no Dictionary has.
    fn add_each<L: Ledger>(
        &mut self,
        alloc: Global,
        index: usize,
        blank: Blank,
        lines: &mut AuditReport,
    ) -> Result<(), Memory>
        requires name { blank.name ≡ L.name }
        requires parts { blank.parts ≡ L.parts }
        requires some { 0 < blank.parts }
        ensures lines { OnOk result (AddsMessageLines self.old.conf self.old.context index
            self.old.moment lines.old lines.new) }
        ensures same { self.new ≡ self.old }
    {
        let mut steps: Steps<L> = Steps::new(blank);
        let count = self.signatures.labels().len();
        if count == 0 {
            let none = Text::from_bytes(alloc, b"-")?;
            return self.add_line(alloc, index, none, &mut steps, lines);
        }
        for place in 0..count {
            let label = self.signatures.labels()[place].copy(alloc)?;
            self.add_line(alloc, index, label, &mut steps, lines)?;
        }
        Ok(())
    }

    /// Adds the lines of the message, which has this index (RFC 9421 section 3.2), and keeps what
    /// its verdicts say of the tags.
    pub(crate) fn add_lines(
        &mut self,
        alloc: Global,
        index: usize,
        lines: &mut AuditReport,
    ) -> Result<(), Memory>
        ensures lines { OnOk result (AddsMessageLines self.old.conf self.old.context index
            self.old.moment lines.old lines.new) }
        ensures same { self.new ≡ self.old }
    {
        let first = lines.len();
        self.add_each::<Brand>(alloc, index, Blank::new(1), lines)?;
        self.known = known_after(alloc, &self.known, &lines.as_slice()[first..])?;
        Ok(())
    }
}

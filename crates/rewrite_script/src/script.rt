//! Reads scripts.

ghost use Rattle.std.specs.Prelude.{◌≡◌, ◌≢◌, List, IfOk, MatchResult};
ghost use Rattle.byte_grammar.specs.Causes.{AnswersWhere};
ghost use Rattle.rewrite_script.specs.declared.fault.ScriptFault.{ScriptFault};
ghost use Rattle.rewrite_script.specs.declared.rewrite.Rewrite.{Rewrite};
ghost use Rattle.rewrite_script.specs.Causes.{IsScriptFault};
ghost use Rattle.rewrite_script.specs.Lines.{HasValues};
ghost use Rattle.rewrite_script.specs.Scripts.{is_unended, line_count, SpellsScript};
ghost use Rattle.rewrite_script.specs.tools.Gives.{GivesWhere};
ghost use Rattle.rewrite_script.specs.tools.Judged.{ExplainsLines, ExplainsScript};
ghost use Rattle.rewrite_script.specs.tools.LineWalk.{ended_read};

use crate::argument::cut;
use crate::fault::{LineFault, ScriptFault};
use crate::limits::MAX_SCRIPT_LINES;
use crate::line::read_line;
use crate::rewrite::{Rewrite, Script};
use std::alloc::Global;

/// Whether the last line isn't ended by LF.
fn is_unended(text: &[u8]) -> bool
    ensures { result ≡ is_unended text.now }
{
    match text.split_last() {
        None => false,
        Some((last, _)) => *last != b'\n',
    }
}

/// How many lines the text has.
fn line_count(text: &[u8]) -> usize
    ensures { result ≡ line_count text.now }
{
    let mut ended = 0;
    for byte in text {
        if *byte == b'\n' {
            ended += 1;
        }
    }
    if is_unended(text) { ended + 1 } else { ended }
}

/// Reads a line and the LF at its end.
#[tactic(auto, using(crate::proofs::ScriptLaws::ended_is, crate::proofs::ScriptLaws::ended_err, crate::proofs::ScriptLaws::not_ended))]
fn read_ended_line(alloc: Global, bytes: &[u8]) -> Result<(Rewrite, &[u8]), LineFault>
    ensures { GivesWhere (λ x. HasValues x.0) (λ x. (x.0, x.1.now)) result
        (ended_read bytes.now) }
{
    let Some((line, rest)) = cut(b'\n', bytes) else {
        return Err(LineFault::NotSpelled);
    };
    match read_line(alloc, line) {
        Ok(rewrite) => Ok((rewrite, rest)),
        Err(fault) => Err(fault),
    }
}

/// Reads line after line, up to the first that is that of no rewriting.
fn read_lines(alloc: Global, text: &[u8]) -> Result<Script, ScriptFault>
    ensures { ExplainsLines text.now result }
{
    let mut script = Script::new(alloc);
    let mut rest = text;
    'lines: while !rest.is_empty() {
        match read_ended_line(alloc, rest) {
            Ok((rewrite, after)) => {
                script.push(rewrite)?;
                rest = after;
            }
            Err(LineFault::Memory) => return Err(ScriptFault::Memory),
            Err(LineFault::NotSpelled) => return Err(ScriptFault::BadLine(script.len())),
        }
    }
    Ok(script)
}

// The answer to a text, by its cause.
#[tactic(auto, using(crate::proofs::Judged::lines_explain, crate::proofs::ScriptLaws::is_too_many))]
fn judge(alloc: Global, text: &[u8]) -> Result<Script, ScriptFault>
    ensures { ExplainsScript text.now result }
{
    if line_count(text) > MAX_SCRIPT_LINES {
        return Err(ScriptFault::TooMany);
    }
    read_lines(alloc, text)
}

/// Reads a script: lines, each that of a rewriting and ended by LF.
pub fn read_script(alloc: Global, text: &[u8]) -> Result<Script, ScriptFault>
    ensures ok { IfOk result (λ script. SpellsScript text.now script) }
    ensures only { (script : List Rewrite) → SpellsScript text.now script
        → MatchResult result (λ given. given ≡ script) (λ fault. fault ≡ ScriptFault.Memory) }

    // The first fault whose cause holds is answered, and no other.
    ensures fault { (fault : ScriptFault) → fault ≢ ScriptFault.Memory
        → AnswersWhere ScriptFault.Memory result fault (IsScriptFault text.now fault) }
{
    judge(alloc, text)
}

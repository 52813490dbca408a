//! Reads a step by itself.

ghost use Rattle.std.specs.Prelude.{IfNone, IfOk, IfSome};
ghost use Rattle.rewrite_script.specs.Lines.{IsNoLine, SpellsLine};

use crate::fault::LineFault;
use crate::line::read_line;
use crate::rewrite::Rewrite;
use sfv_text::Memory;
use std::alloc::Global;

/// The rewriting that the line says, where it is that of one. The LF at its end isn't there.
#[tactic(auto, using(crate::proofs::StepLaws::step_isnt))]
pub fn read_step(alloc: Global, line: &[u8]) -> Result<Option<Rewrite>, Memory>
    ensures some { IfOk result (λ step. IfSome step (SpellsLine line.now)) }
    ensures none { IfOk result (λ step. IfNone step (IsNoLine line.now)) }
{
    match read_line(alloc, line) {
        Ok(rewrite) => Ok(Some(rewrite)),
        Err(LineFault::NotSpelled) => Ok(None),
        Err(LineFault::Memory) => Err(Memory),
    }
}

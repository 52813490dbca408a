//! The script of a hop.

ghost use Rattle.std.specs.Prelude.{◌≡◌, ◌<◌, IfOk};
ghost use Rattle.samples.specs.Draws.{state_after};
ghost use Rattle.samples.specs.Scripts.{hop_draws, hop_steps, sizes_of};

use crate::draws::Draws;
use crate::limits::{CONTENT_BYTES, SIGNED_LINES};
use msg_head::Side;
use rewrite_script::{LineRewrite, Rewrite, Script, Sizes, WholeRewrite};
use sfv_text::{Memory, Text};
use std::alloc::Global;

/// As many chunks of this size as the content has, and the rest of it.
fn sizes_of(alloc: Global, size: u64) -> Result<Sizes, Memory>
    requires { 0 < size }
    ensures { IfOk result (λ sizes. sizes ≡ sizes_of size) }
{
    let mut sizes = Sizes::new(alloc);
    for _ in 0..CONTENT_BYTES / size {
        sizes.push(size)?;
    }
    let rest = CONTENT_BYTES % size;
    if rest > 0 {
        sizes.push(rest)?;
    }
    Ok(sizes)
}

/// The steps of the next hop.
pub(crate) fn hop_script(alloc: Global, draws: &mut Draws) -> Result<Script, Memory>
    ensures { IfOk result (λ script. (script ≡ hop_steps draws.old.state)
        × (draws.new.state ≡ state_after hop_draws draws.old.state)) }
{
    let index = draws.below(SIGNED_LINES) as usize;
    let count = 1 + draws.below(3) as usize;
    let from = draws.below(SIGNED_LINES) as usize;
    let to = draws.below(SIGNED_LINES) as usize;
    let size = 1_000 + draws.below(9_000);
    let mut script = Script::new(alloc);
    script.push(Rewrite::Lines(LineRewrite::Pad {
        side: Side::Header,
        index,
        before: Text::from_bytes(alloc, &b"   "[..count])?,
        after: Text::new(alloc),
    }))?;
    script.push(Rewrite::Lines(LineRewrite::Move {
        side: Side::Header,
        index: from,
        to,
    }))?;
    script.push(Rewrite::Whole(WholeRewrite::Rechunk {
        sizes: sizes_of(alloc, size)?,
    }))?;
    Ok(script)
}

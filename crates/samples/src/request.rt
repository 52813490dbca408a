//! The request of a sample, unsigned and signed.

ghost use Rattle.std.specs.Prelude.{◌≡◌, ◌<◌, ◌++◌, ℕ, IfOk, OnOk};
ghost use Rattle.component_values.specs.Context.{context_of};
ghost use Rattle.settings.specs.ConfMeaning.{meaning};
ghost use Rattle.samples.specs.Chains.{IsUnsigned, sample_context};
ghost use Rattle.samples.specs.Requests.{content_of, request_text, sample_configuration, sample_spec};
ghost use Rattle.samples.specs.tools.Made.{SpellsSample};

use crate::conf::sample_spec;
use crate::limits::CONTENT_BYTES;
use crate::read_fault::only_memory;
use component_values::Context;
use msg_body::{Reading, whole_message};
use settings::Conf;
use sfv_text::{Memory, Text};
use signing::{SignFault, SignSpec, sign};
use std::alloc::Global;
use verdicts::context_for;

const REQUEST_HEAD: &[u8] = b"POST /sample HTTP/1.1\r\n\
    Host: sample.example\r\n\
    Date: Tue, 20 Apr 2021 02:07:55 GMT\r\n\
    Transfer-Encoding: chunked\r\n\
    \r\n\
    186a0\r\n";

/// Adds the content: bytes that count up from the seed.
fn append_content(seed: u64, text: &mut Text) -> Result<(), Memory>
    requires { seed < 1_000_000_000 }
    ensures { OnOk result (text.new ≡ text.old ++ content_of seed) }
{
    for j in 0..CONTENT_BYTES {
        let byte = ((j + seed) % 256) as u8;
        text.push(byte)?;
    }
    Ok(())
}

/// The unsigned request.
fn request_text(alloc: Global, seed: u64) -> Result<Text, Memory>
    requires { seed < 1_000_000_000 }
    ensures { IfOk result (λ text. text ≡ request_text seed) }
{
    let mut text = Text::from_bytes(alloc, REQUEST_HEAD)?;
    append_content(seed, &mut text)?;
    text.append(b"\r\n0\r\n\r\n")?;
    Ok(text)
}

/// The message of the context, signed as that of a sample is.
fn signed_by(alloc: Global, context: &Context<'_, '_>, spec: &SignSpec) -> Result<Text, Memory>
    requires context { context_of context.now ≡ sample_context (context_of context.now).message }
    requires unsigned { (seed : ℕ) × IsUnsigned seed (context_of context.now).message }
    requires spec { spec.now ≡ sample_spec }
    ensures { (seed : ℕ) → IsUnsigned seed (context_of context.now).message
        → IfOk result (SpellsSample seed) }
{
    match sign(alloc, context, spec) {
        Ok(signed) => Ok(signed),
        Err(fault) => match fault {
            SignFault::Memory => Err(Memory),
            // nothing keeps the request of a sample from being signed
            _ => unreachable!(),
        },
    }
}

/// The message of the context, signed.
fn signed_message(alloc: Global, context: &Context<'_, '_>) -> Result<Text, Memory>
    requires context { context_of context.now ≡ sample_context (context_of context.now).message }
    requires unsigned { (seed : ℕ) × IsUnsigned seed (context_of context.now).message }
    ensures { (seed : ℕ) → IsUnsigned seed (context_of context.now).message
        → IfOk result (SpellsSample seed) }
{
    let spec = sample_spec(alloc)?;
    signed_by(alloc, context, &spec)
}

/// The unsigned request of these bytes, signed.
fn signed_text<'x>(alloc: Global, conf: &'x Conf, bytes: &'x [u8]) -> Result<Text, Memory>
    requires conf { meaning conf.now ≡ sample_configuration }
    requires request { (seed : ℕ) × (bytes.now ≡ request_text seed) }
    ensures { (seed : ℕ) → bytes.now ≡ request_text seed → IfOk result (SpellsSample seed) }
{
    let unsigned = match whole_message(alloc, Reading::of_request(), bytes) {
        Ok(unsigned) => unsigned,
        Err(fault) => return Err(only_memory(fault)),
    };
    let context = context_for(conf, &unsigned, None);
    signed_message(alloc, &context)
}

/// The signed request.
pub(crate) fn signed_request(alloc: Global, conf: &Conf, seed: u64) -> Result<Text, Memory>
    requires conf { meaning conf.now ≡ sample_configuration }
    requires seed { seed < 1_000_000_000 }
    ensures { IfOk result (SpellsSample seed) }
{
    let text = request_text(alloc, seed)?;
    signed_text(alloc, conf, text.bytes())
}

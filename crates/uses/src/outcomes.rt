// Tests of refusals and commands.

ghost use Rattle.std.specs.Prelude.{IsTrue};
ghost use Rattle.verdicts.specs.Verdicts.{is_verdict_in_range};

use crate::given::{GivenConf, is_text, message};
use commands::{Outcome, base_outcome, context_for, verify_outcome};
use component_values::Context;
use conf::Conf;
use hms_io::{MemShelf, Status};
use intake::read_configuration;
use msg_body::MessageView;
use refusals::{FileRefusal, Refusal, Role};
use sfv_text::Text;
use std::alloc::Global;
use verdicts::{Place, Rule, Verdict, append_verdict_line};

// Whether the verdict's line is added, and with the one before it is the text.
fn is_added(alloc: Global, verdict: &Verdict, lines: &mut Text) -> bool
    requires { IsTrue (is_verdict_in_range verdict.now) }
{
    lines.append(b"a ok\n").is_ok()
        && append_verdict_line(alloc, b"sig1", verdict, lines).is_ok()
        && lines.bytes() == b"a ok\nsig1 rule 11 component-repeated 1\n".as_slice()
}

fn is_verdict_line(alloc: Global) -> bool {
    let verdict = Verdict::Rule {
        number: Rule::ComponentRepeated,
        place: Place::Index(1),
    };
    is_added(alloc, &verdict, &mut Text::new(alloc))
}

fn is_item_line(alloc: Global) -> bool {
    let refusal = Refusal::Of(Role::Item(12), FileRefusal::TooLong(1_048_576));
    is_text(refusal.line(alloc), b"refused item 12 bytes 1048576\n")
        && refusal.status() == Status::LimitPassed
}

#[test]
fn lines_of_a_verdict_and_of_a_refusal(rt: HostRuntime) {
    assert!(rt; is_verdict_line(rt.alloc()) && is_item_line(rt.alloc()));
}

const INPUT: &[u8] = b"GET / HTTP/1.1\r\nHost: example.com:80\r\n\r\n";

const BASE: &[u8] = b"\"@authority\": example.com\n\"@signature-params\": (\"@authority\")";

fn configured(alloc: Global, shelf: &mut MemShelf) -> Option<GivenConf> {
    match read_configuration(alloc, Some("hms.toml"), shelf) {
        Ok(conf) => Some(GivenConf { conf }),
        Err(_) => None,
    }
}

fn writes(alloc: Global, outcome: Outcome, bytes: &[u8]) -> bool {
    match outcome.into_parts(alloc) {
        Ok((text, refusal)) => text.bytes() == bytes && refusal.is_none(),
        Err(_) => false,
    }
}

fn has_base(alloc: Global, context: &Context<'_, '_>) -> bool {
    match base_outcome(alloc, br#"("@authority")"#, context) {
        Ok(outcome) => { outcome.status() == Status::Done && writes(alloc, outcome, BASE) }
        Err(_) => false,
    }
}

fn has_verdicts(alloc: Global, conf: &Conf, context: &Context<'_, '_>) -> bool {
    match verify_outcome(alloc, conf, 0, None, context) {
        Ok(outcome) => {
            outcome.status() == Status::NotOk && writes(alloc, outcome, b"- rule 1 input-absent\n")
        }
        Err(_) => false,
    }
}

fn has_both<'x>(alloc: Global, conf: &'x Conf, view: &'x MessageView<'_>) -> bool {
    let context = context_for(conf, view, None);
    has_base(alloc, &context) && has_verdicts(alloc, conf, &context)
}

fn is_run_by(alloc: Global, conf: &Conf) -> bool {
    match message(alloc, INPUT) {
        Some(input) => has_both(alloc, conf, &input.view),
        None => false,
    }
}

fn is_run(alloc: Global, shelf: &mut MemShelf) -> bool {
    match configured(alloc, shelf) {
        Some(given) => is_run_by(alloc, &given.conf),
        None => false,
    }
}

fn is_shelf_run(alloc: Global) -> bool {
    match MemShelf::new(alloc, &[]) {
        Ok(mut shelf) => {
            shelf.put("hms.toml", b"scheme = \"http\"").is_ok() && is_run(alloc, &mut shelf)
        }
        Err(_) => false,
    }
}

#[test]
fn base_and_verdicts_by_a_configuration(rt: HostRuntime) {
    assert!(rt; is_shelf_run(rt.alloc()));
}

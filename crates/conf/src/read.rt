//! Reads a configuration.

ghost use Rattle.std.specs.Prelude.{◌≡◌, [], None, IfOk, IfErr, MatchResult};
ghost use Rattle.std.specs.Option.{ForSome};
ghost use Rattle.byte_grammar.specs.Causes.{AnswersWhere};
ghost use Rattle.conf.specs.declared.fault.ConfFault.{ConfFault};
ghost use Rattle.settings.specs.Configuration.{Configuration};
ghost use Rattle.conf.specs.Meaning.{Configures, IsConfiguration};
ghost use Rattle.conf.specs.Refusals.{IsConfFault};
ghost use Rattle.toml.specs.View.{table_view};
ghost use Rattle.conf.specs.tools.Judged.{IsFirstIn};
ghost use Rattle.settings.specs.ConfMeaning.{meaning};
ghost use Rattle.settings.specs.Valid.{IsValidSign};
ghost use Rattle.settings.specs.ValidSections.{IsValidGateway};

use crate::document::read_document;
use crate::fault::ConfFault;
use crate::judge::judge_document;
use crate::key_texts::read_keys;
use crate::kinds::read_types;
use crate::members::FixedTables;
use crate::policy_reader::nonces_of;
use crate::sections::{Sections, read_sections};
use crate::values::scheme_in;
use settings::{Conf, GatewayConf, SignConf};
use sfv_text::Memory;
use std::alloc::Global;
use toml::Table;

/// The configuration with what is said of signing, where something is.
fn with_sign_of(conf: Conf, sign: Option<SignConf>) -> Conf
    requires none { (meaning conf).sign ≡ None }
    requires valid { ForSome sign (IsValidSign (meaning conf).keys) }
    ensures { meaning result ≡ record (meaning conf) { sign = sign } }
{
    match sign {
        None => conf,
        Some(sign) => conf.with_sign(sign),
    }
}

/// The configuration with what is said of a gateway, where something is.
fn with_gateway_of(conf: Conf, gateway: Option<GatewayConf>) -> Conf
    requires none { (meaning conf).gateway ≡ None }
    requires valid { ForSome gateway IsValidGateway }
    ensures { meaning result ≡ record (meaning conf) { gateway = gateway } }
{
    match gateway {
        None => conf,
        Some(gateway) => conf.with_gateway(gateway),
    }
}

/// The configuration that the document is.
fn conf_of(alloc: Global, document: &Table) -> Result<Conf, ConfFault>
    ensures ok { IfOk result (λ conf. IsConfiguration (table_view document.now) (meaning conf)) }
    ensures err { IfErr result (IsFirstIn (table_view document.now)) }
{
    let tables = FixedTables::of(document);
    judge_document(alloc, tables)?;
    let keys = read_keys(alloc, document)?;
    let types = read_types(alloc, document)?;
    let Sections {
        policies,
        sign,
        gateway,
    } = read_sections(alloc, tables)?;
    let judged = Conf::new(
        scheme_in(document),
        keys,
        types,
        policies,
        nonces_of(tables),
    );
    let signing = with_sign_of(judged, sign);
    Ok(with_gateway_of(signing, gateway))
}

/// Reads the text of a configuration.
///
/// Of several faults the one with the least number is answered, and of those of that number the one
/// with the least path in the order of bytes.
pub fn read_conf(alloc: Global, text: &[u8]) -> Result<Conf, ConfFault>
    ensures ok { IfOk result (λ conf. Configures text.now (meaning conf)) }
    ensures only { (conf : Configuration) → Configures text.now conf
        → MatchResult result (λ given. meaning given ≡ conf) (λ fault. fault ≡ ConfFault.Memory) }

    // The first fault whose cause holds is answered, and no other.
    ensures fault { (fault : ConfFault) → ¬ (fault ≡ ConfFault.Memory)
        → AnswersWhere ConfFault.Memory result fault (IsConfFault text.now fault) }
{
    let document = read_document(alloc, text)?;
    conf_of(alloc, &document)
}

/// The configuration of the empty text.
pub fn empty_conf(alloc: Global) -> Result<Conf, Memory>
    ensures { IfOk result (λ conf. Configures [] (meaning conf)) }
{
    Conf::standard(alloc)
}

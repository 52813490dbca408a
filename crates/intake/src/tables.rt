//! The tables that a command needs in its configuration.

ghost use Rattle.std.specs.Prelude.{IfOk, IfErr, IfSome, IfNone};
ghost use Rattle.conf.specs.ConfMeaning.{meaning};
ghost use Rattle.conf.specs.declared.fault.ConfFault.TheVariants.{Missing};
ghost use Rattle.refusals.specs.declared.file.FileRefusal.TheVariants.{Conf as ConfRefusal};
ghost use Rattle.refusals.specs.declared.refusal.Refusal.TheVariants.{Of};
ghost use Rattle.refusals.specs.declared.role.Role.TheVariants.{Conf as OfConf};
ghost use Rattle.intake.specs.Stops.{IfRefused, IsRefusalFor};
ghost use Rattle.intake.specs.Tables.{HasTables, IsTableMissing};

use crate::stop::Stop;
use conf::{Conf, ConfFault};
use refusals::{FileRefusal, Role};
use sfv_text::Text;
use std::alloc::Global;

/// What a command needs of its configuration.
#[derive(Clone, Copy, PartialEq, Eq)]
pub enum Needs {
    /// No table.
    Nothing,
    /// The table `sign`, which says what is signed.
    SignTable,
    /// The tables `gateway` and `sign`.
    GatewayTables,
}

/// The first table that is needed and isn't there, in the order of their names' bytes.
fn missing_table(needs: Needs, conf: &Conf) -> Option<&'static str>
    ensures some { IfSome result (λ name.
        IsTableMissing needs (meaning conf.now) (ConfRefusal (Missing name.now))) }
    ensures none { IfNone result (HasTables needs (meaning conf.now)) }
{
    if needs == Needs::GatewayTables && conf.gateway().is_none() {
        return Some("gateway");
    }
    if needs != Needs::Nothing && conf.sign().is_none() {
        return Some("sign");
    }
    None
}

/// Refuses a configuration that lacks what is needed.
pub fn check_tables(alloc: Global, needs: Needs, conf: &Conf) -> Result<(), Stop>
    ensures ok { IfOk result (λ _. HasTables needs (meaning conf.now)) }
    ensures refused { IfErr result (λ stop. IfRefused stop (IsRefusalFor
        (IsTableMissing needs (meaning conf.now)) (λ cause. Of OfConf cause))) }
{
    let Some(table) = missing_table(needs, conf) else {
        return Ok(());
    };
    let fault = ConfFault::Missing(Text::from_bytes(alloc, table.as_bytes())?);
    Err(Stop::of_text(Role::Conf, FileRefusal::Conf(fault)))
}

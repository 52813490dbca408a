//! What the tables of a document say of policies, of signing and of gateways.

ghost use Rattle.std.specs.Prelude.{IfErr, IfOk};
ghost use Rattle.toml.specs.View.{table_view};
ghost use Rattle.conf.specs.tools.Judged.{IsClearBelow, IsFirstIn, IsJudged};
ghost use Rattle.conf.specs.tools.SectionReads.{AreSections};
ghost use Rattle.conf.specs.tools.Views.{AreTables};

use crate::fault::ConfFault;
use crate::gateway_reader::{gateway_of, read_steps};
use crate::judge::{RowFault, judge_rows};
use crate::lists::{Lists, read_lists};
use crate::members::FixedTables;
use crate::policy_reader::policies_of;
use crate::sign_reader::sign_of;
use settings::{GatewayConf, Policies, SignConf};
use std::alloc::Global;

/// How signatures are judged, how messages are signed, and what a gateway does.
#[derive(Drop)]
pub(crate) struct Sections {
    pub(crate) policies: Policies,
    pub(crate) sign: Option<SignConf>,
    pub(crate) gateway: Option<GatewayConf>,
}

/// What the tables say, where their lists are read and no key is missing.
pub(crate) fn read_sections(alloc: Global, tables: FixedTables) -> Result<Sections, ConfFault>
    requires tables { AreTables tables }
    requires judged { IsJudged (table_view tables.document.now) }
    ensures ok { IfOk result (AreSections (table_view tables.entry.document.now)) }
    ensures err { IfErr result (λ e. IsClearBelow 7 (table_view tables.entry.document.now)
        → IsFirstIn (table_view tables.entry.document.now) e) }
{
    let lists = read_lists(alloc, tables)?;
    let steps = read_steps(alloc, tables)?;
    judge_rows(alloc, RowFault::Missing, tables)?;
    let Lists {
        components_request,
        components_response,
    } = lists;
    let policies = policies_of(alloc, tables)?;
    let sign = sign_of(alloc, tables, components_request, components_response)?;
    let gateway = gateway_of(alloc, tables, steps)?;
    Ok(Sections {
        policies,
        sign,
        gateway,
    })
}

//! How messages are signed, as a document says it.

ghost use Rattle.std.specs.Prelude.{IfOk, MatchOption, codes};
ghost use Rattle.toml.specs.Data.{get_member};
ghost use Rattle.toml.specs.View.{table_view};
ghost use Rattle.conf_values.specs.declared.table.TableName.TheVariants.{Sign};
ghost use Rattle.conf.specs.Table.{members_at};
ghost use Rattle.conf.specs.Sections.{AreComponents, IsSignConf};
ghost use Rattle.conf.specs.tools.SectionReads.{LacksName};
ghost use Rattle.conf.specs.tools.Views.{AreTables};

use crate::members::FixedTables;
use crate::values::{digest_in, has_alg, read_tag, seconds_in};
use component_ids::Ids;
use conf_values::TableName;
use settings::SignConf;
use sfv_text::{Memory, Text};
use std::alloc::Global;

/// What the table `sign` of the document says, with the components that it lists; none where it has
/// no label or no keyid.
pub(crate) fn sign_of(
    alloc: Global,
    tables: FixedTables,
    request: Ids,
    response: Ids,
) -> Result<Option<SignConf>, Memory>
    requires tables { AreTables tables }
    requires request { AreComponents (get_member (codes "components-request")
        (members_at (table_view tables.document.now) Sign)) request }
    requires response { AreComponents (get_member (codes "components-response")
        (members_at (table_view tables.document.now) Sign)) response }
    ensures { IfOk result (λ o. MatchOption o
        (LacksName (members_at (table_view tables.entry.document.now) Sign))
        (IsSignConf (members_at (table_view tables.entry.document.now) Sign))) }
{
    let Some(label) = tables.text_at(TableName::Sign, "label") else {
        return Ok(None);
    };
    let Some(keyid) = tables.text_at(TableName::Sign, "keyid") else {
        return Ok(None);
    };
    Ok(Some(SignConf {
        label: Text::from_bytes(alloc, label.as_bytes())?,
        keyid: Text::from_bytes(alloc, keyid.as_bytes())?,
        components_request: request,
        components_response: response,
        expires_after: seconds_in(tables),
        alg: has_alg(tables),
        tag: read_tag(alloc, tables.sign)?,
        digest: digest_in(tables),
    }))
}

//! The lists of covered components of a document.

ghost use Rattle.std.specs.Prelude.{IfErr, IfOk, OnOk};
ghost use Rattle.toml.specs.Data.{get_member};
ghost use Rattle.toml.specs.View.{array_view, table_view};
ghost use Rattle.conf_values.specs.Parts.{tables_of};
ghost use Rattle.conf.specs.tools.Judged.{IsCauseNumbered};
ghost use Rattle.conf.specs.tools.SectionReads.{AreGoodLists, AreLists, HaveGoodLists, HaveGoodTables, IsGoodList, IsListFault, IsListsFault, IsToldList};
ghost use Rattle.conf.specs.tools.Views.{AreTables};
ghost use Rattle.conf_values.specs.Views.{table_members};

use crate::fault::ConfFault;
use crate::members::FixedTables;
use component_ids::Ids;
use conf_values::text_of;
use settings::read_covered;
use sfv_text::{Memory, Text};
use std::alloc::Global;
use toml::Table;
use toml::value::Array;

/// The lists of a document that signing covers.
#[derive(Drop)]
pub(crate) struct Lists {
    pub(crate) components_request: Ids,
    pub(crate) components_response: Ids,
}

/// The components that the table lists under the name, none where it has no list there. The list
/// was judged.
pub(crate) fn components_in(alloc: Global, table: Option<&Table>, name: &str) -> Result<Ids, Memory>
    requires { IsGoodList (get_member name.now (table_members table)) }
    ensures { IfOk result (IsToldList (get_member name.now (table_members table.entry))) }
{
    let Some(text) = text_of(table, name) else {
        return Ok(Ids::new(alloc));
    };
    match read_covered(alloc, text.as_bytes())? {
        None => unreachable!(),
        Some(ids) => Ok(ids),
    }
}

/// The components that the table lists under the name, none where it has no text there; or the
/// fault of a text that is no such list.
fn read_components(
    alloc: Global,
    table: Option<&Table>,
    name: &str,
    path: &str,
) -> Result<Ids, ConfFault>
    ensures ok { IfOk result (IsToldList (get_member name.now (table_members table.entry))) }
    ensures good { OnOk result (IsGoodList (get_member name.now (table_members table.entry))) }
    ensures err { IfErr result
        (IsListFault (get_member name.now (table_members table.entry)) path.now) }
{
    let Some(text) = text_of(table, name) else {
        return Ok(Ids::new(alloc));
    };
    match read_covered(alloc, text.as_bytes())? {
        None => Err(ConfFault::BadComponents(Text::from_bytes(alloc, path.as_bytes())?)),
        Some(ids) => Ok(ids),
    }
}

/// Judges the list of that name in each table of the array.
fn judge_lists(alloc: Global, array: &Array, name: &str, path: &str) -> Result<(), ConfFault>
    ensures ok { OnOk result (AreGoodLists name.now (tables_of (array_view array.now))) }
    ensures err { IfErr result (IsListsFault name.now (tables_of (array_view array.now)) path.now) }
{
    for value in array {
        read_components(alloc, value.as_table(), name, path)?;
    }
    Ok(())
}

/// Judges the lists of the tables of `policies`, in the order of their paths' bytes.
fn judge_tables_lists(alloc: Global, tables: FixedTables) -> Result<(), ConfFault>
    requires { AreTables tables }
    ensures ok { OnOk result (HaveGoodTables (table_view tables.entry.document.now)) }
    ensures err { IfErr result (IsCauseNumbered 7 (table_view tables.entry.document.now)) }
{
    let Some(array) = tables.policies else {
        return Ok(());
    };
    judge_lists(alloc, array, "require-request", "policies.require-request")?;
    judge_lists(
        alloc,
        array,
        "require-response",
        "policies.require-response",
    )
}

/// Judges the lists of the policies, in the order of their paths' bytes.
fn judge_policy_lists(alloc: Global, tables: FixedTables) -> Result<(), ConfFault>
    requires { AreTables tables }
    ensures ok { OnOk result (HaveGoodLists (table_view tables.entry.document.now)) }
    ensures err { IfErr result (IsCauseNumbered 7 (table_view tables.entry.document.now)) }
{
    judge_tables_lists(alloc, tables)?;
    let policy = tables.policy;
    read_components(alloc, policy, "require-request", "policy.require-request")?;
    read_components(alloc, policy, "require-response", "policy.require-response")?;
    Ok(())
}

/// The lists of `sign`, where no list of the document is bad; else the first that is, in the order
/// of their paths' bytes.
pub(crate) fn read_lists(alloc: Global, tables: FixedTables) -> Result<Lists, ConfFault>
    requires { AreTables tables }
    ensures ok { IfOk result (AreLists (table_view tables.entry.document.now)) }
    ensures good { OnOk result (HaveGoodLists (table_view tables.entry.document.now)) }
    ensures err { IfErr result (IsCauseNumbered 7 (table_view tables.entry.document.now)) }
{
    judge_policy_lists(alloc, tables)?;
    let components_request = read_components(
        alloc,
        tables.sign,
        "components-request",
        "sign.components-request",
    )?;
    let components_response = read_components(
        alloc,
        tables.sign,
        "components-response",
        "sign.components-response",
    )?;
    Ok(Lists {
        components_request,
        components_response,
    })
}

//! What a gateway does, as a document says it.

ghost use Rattle.std.specs.Prelude.{◌≡◌, false, IfErr, IfOk, MatchOption, OnOk};
ghost use Rattle.toml.specs.Data.{as_str};
ghost use Rattle.toml.specs.View.{array_view, table_view, view};
ghost use Rattle.conf_values.specs.declared.table.TableName.TheVariants.{Gateway};
ghost use Rattle.conf.specs.Table.{has_place};
ghost use Rattle.conf.specs.tools.Judged.{IsCauseNumbered};
ghost use Rattle.conf.specs.tools.Views.{AreTables};
ghost use Rattle.conf.specs.tools.GatewayReads.{AddsLine, AreReadSteps, AreStepsOf, IsReadGateway, IsStepFault, IsStepsFault, label_in};

use crate::fault::ConfFault;
use crate::members::FixedTables;
use conf_values::TableName;
use rewrite_script::{Script, read_step};
use settings::GatewayConf;
use sfv_text::{Memory, Text};
use std::alloc::Global;
use toml::Value;
use toml::value::Array;

/// Adds the step that the value says. A value that is no text is left out.
fn add_step(alloc: Global, script: &mut Script, value: &Value) -> Result<(), ConfFault>
    ensures ok { OnOk result (AddsLine (as_str (view value.now)) script.old script.new) }
    ensures err { IfErr result (IsStepFault (view value.now)) }
{
    let Some(line) = value.as_str() else {
        return Ok(());
    };
    match read_step(alloc, line.as_bytes())? {
        None => Err(ConfFault::BadScript(Text::from_bytes(alloc, b"gateway.steps")?)),
        Some(step) => Ok(script.push(step)?),
    }
}

/// The steps that the values say, in order.
fn steps_in(alloc: Global, array: &Array) -> Result<Script, ConfFault>
    ensures ok { IfOk result (AreStepsOf (array_view array.now)) }
    ensures err { IfErr result (IsStepsFault (array_view array.now)) }
{
    let mut script = Script::new(alloc);
    for value in array {
        add_step(alloc, &mut script, value)?;
    }
    Ok(script)
}

/// The steps that `gateway` has; none where nothing is said.
pub(crate) fn read_steps(alloc: Global, tables: FixedTables) -> Result<Script, ConfFault>
    requires { AreTables tables }
    ensures ok { IfOk result (AreReadSteps (table_view tables.entry.document.now)) }
    ensures err { IfErr result
        (IsCauseNumbered 8 (table_view tables.entry.document.now)) }
{
    let Some(value) = tables.value_at(TableName::Gateway, "steps") else {
        return Ok(Script::new(alloc));
    };
    match value.as_array() {
        None => Ok(Script::new(alloc)),
        Some(array) => steps_in(alloc, array),
    }
}

/// The label that `gateway` asks for.
fn label_of(alloc: Global, tables: FixedTables) -> Result<Option<Text>, Memory>
    requires { AreTables tables }
    ensures { IfOk result (λ label. label ≡ label_in (table_view tables.entry.document.now)) }
{
    match tables.text_at(TableName::Gateway, "label") {
        None => Ok(None),
        Some(label) => Ok(Some(Text::from_bytes(alloc, label.as_bytes())?)),
    }
}

/// What the table `gateway` says, with the steps that it has; none where there is no such table.
pub(crate) fn gateway_of(
    alloc: Global,
    tables: FixedTables,
    steps: Script,
) -> Result<Option<GatewayConf>, Memory>
    requires tables { AreTables tables }
    requires steps { AreReadSteps (table_view tables.document.now) steps }
    ensures { IfOk result (λ o. MatchOption o
        (has_place (table_view tables.entry.document.now) Gateway ≡ false)
        (IsReadGateway (table_view tables.entry.document.now))) }
{
    if tables.at(TableName::Gateway).is_none() {
        return Ok(None);
    }
    let label = label_of(alloc, tables)?;
    Ok(Some(GatewayConf { label, steps }))
}

//! The faults of a document's keys and values, in the order in which they are judged.

ghost use Rattle.std.specs.Prelude.{◌≡◌, IfErr, IsTrue, OnOk, map, option_copied, option_map};
ghost use Rattle.std.specs.List.{list_any};
ghost use Rattle.toml.specs.Data.{get_member};
ghost use Rattle.toml.specs.View.{array_view, table_view, view};
ghost use Rattle.conf_values.specs.declared.table.TableName.TheVariants.{Policies};
ghost use Rattle.conf.specs.Paths.{HoldsOfNone};
ghost use Rattle.conf.specs.Table.{has_unknown, has_unknown_key, is_missing, is_true_of_value, places, rows, tables_at, tables_of, version_in};
ghost use Rattle.conf.specs.Rows.{clashes, fails, is_ill_typed, is_out_of_range};
ghost use Rattle.conf.specs.tools.Judged.{fault_of, first_path, first_place, is_refused, passes_test, row_fault_number, IsJudged, IsFirstIn, IsCauseNumbered};
ghost use Rattle.conf_values.specs.Table.{row_of};
ghost use Rattle.conf.specs.tools.Views.{AreTables};

use crate::fault::ConfFault;
use crate::members::FixedTables;
use conf_values::{
    Row, TableName, ValueRule, Version, has_long_window, has_type, has_window_over, is_allowed,
    is_table_key, member_of, places, rows,
};
use settings::DAY_WINDOW;
use sfv_text::Text;
use std::alloc::Global;
use toml::value::Array;
use toml::{Table, Value};

// ---- keys that are unknown

fn has_unknown_in(table: &Table, version: Option<Version>, place: TableName) -> bool
    ensures { result ≡ has_unknown_key version place (table_view table.now) }
{
    for (name, _) in table.iter() {
        if !is_table_key(version, place, name.as_str()) {
            return true;
        }
    }
    false
}

/// Whether a policy of the array has an unknown key.
fn has_unknown_policy_key(array: &Array, version: Option<Version>) -> bool
    ensures { result ≡ list_any (has_unknown_key version Policies)
        (tables_of (array_view array.now)) }
{
    for value in array {
        if let Some(table) = value.as_table() {
            if has_unknown_in(table, version, TableName::Policies) {
                return true;
            }
        }
    }
    false
}

/// Whether an unknown key is in the tables of the place.
fn has_unknown_at(tables: FixedTables, place: TableName) -> bool
    requires { AreTables tables }
    ensures { result ≡ list_any (has_unknown_key (version_in (table_view tables.entry.document.now))
        place) (tables_at (table_view tables.entry.document.now) place) }
{
    if let TableName::Policies = place {
        return match tables.policies {
            None => false,
            Some(array) => has_unknown_policy_key(array, tables.version),
        };
    }
    match tables.at(place) {
        None => false,
        Some(table) => has_unknown_in(table, tables.version, place),
    }
}

fn has_unknown(tables: FixedTables, place: TableName) -> bool
    requires { AreTables tables }
    ensures { result ≡ has_unknown (table_view tables.entry.document.now) place }
{
    place.is_in(tables.version) && has_unknown_at(tables, place)
}

/// The path of the first of the places that has an unknown key.
fn first_unknown(tables: FixedTables, places: &[TableName]) -> Option<&'static str>
    requires { AreTables tables }
    ensures { option_copied result
        ≡ first_place (has_unknown (table_view tables.entry.document.now)) places.now }
{
    for place in places {
        if has_unknown(tables, *place) {
            return Some(place.path());
        }
    }
    None
}

fn judge_keys(alloc: Global, tables: FixedTables) -> Result<(), ConfFault>
    requires { AreTables tables }
    ensures ok { OnOk result
        (HoldsOfNone (λ place. IsTrue (has_unknown (table_view tables.entry.document.now) place))
        places) }
    ensures err { IfErr result (IsCauseNumbered 3 (table_view tables.entry.document.now)) }
{
    match first_unknown(tables, places()) {
        None => Ok(()),
        Some(path) => Err(ConfFault::UnknownKey(Text::from_bytes(alloc, path.as_bytes())?)),
    }
}

// ---- values that are refused, and keys that are missing

/// A fault of a key: what is judged of each row of the table.
#[derive(Clone, Copy)]
pub(crate) enum RowFault {
    WrongType,
    OutOfRange,
    Missing,
}

impl RowFault {
    fn fault_at(self, path: Text) -> ConfFault
        ensures { result ≡ fault_of self path }
    {
        match self {
            RowFault::WrongType => ConfFault::WrongType(path),
            RowFault::OutOfRange => ConfFault::OutOfRange(path),
            RowFault::Missing => ConfFault::Missing(path),
        }
    }
}

/// What is asked of a value.
#[derive(Clone, Copy)]
pub(crate) enum ValueTest {
    HasType,
    IsAllowed,
}

/// Whether there is a value, and it fails the test.
fn fails(test: ValueTest, document: &Table, rule: ValueRule, value: Option<&Value>) -> bool
    ensures { result ≡ fails (passes_test test (table_view document.now) rule)
        (option_map (λ value. view value.now) value.entry) }
{
    let Some(value) = value else {
        return false;
    };
    match test {
        ValueTest::HasType => !has_type(rule, value),
        ValueTest::IsAllowed => !is_allowed(document, rule, value),
    }
}

/// Whether a value of the key fails the test, in one of the tables of the array.
fn fails_in_array(test: ValueTest, document: &Table, row: &Row, array: &Array) -> bool
    ensures { result ≡ list_any
        (λ pairs. fails (passes_test test (table_view document.now) row.now.rule)
        (get_member row.now.key.now pairs))
        (tables_of (array_view array.now)) }
{
    for value in array {
        if fails(
            test,
            document,
            row.rule,
            member_of(value.as_table(), row.key),
        ) {
            return true;
        }
    }
    false
}

/// Whether a value of the key fails the test.
fn fails_at(test: ValueTest, tables: FixedTables, row: &Row) -> bool
    requires { AreTables tables }
    ensures { result ≡ is_true_of_value
        (fails (passes_test test (table_view tables.entry.document.now) row.now.rule))
        (table_view tables.entry.document.now) (row_of row.now) }
{
    if let TableName::Policies = row.place {
        return match tables.policies {
            None => false,
            Some(array) => fails_in_array(test, tables.document, row, array),
        };
    }
    fails(
        test,
        tables.document,
        row.rule,
        tables.value_at(row.place, row.key),
    )
}

/// Whether the values of several keys don't go together, of which the rule's key is the first:
/// whether `max-age` and twice `skew` are more than a day in version 1, or more than `MAX_WINDOW`
/// in one of the tables of version 2.
fn clashes(tables: FixedTables, rule: ValueRule) -> bool
    requires { AreTables tables }
    ensures { result ≡ clashes (table_view tables.entry.document.now) rule }
{
    match rule {
        ValueRule::MaxAge => has_window_over(tables.policy, DAY_WINDOW),
        ValueRule::LongMaxAge => match tables.policies {
            None => false,
            Some(array) => has_long_window(array),
        },
        _ => false,
    }
}

fn is_ill_typed(tables: FixedTables, row: &Row) -> bool
    requires { AreTables tables }
    ensures { result ≡ is_ill_typed (table_view tables.entry.document.now) (row_of row.now) }
{
    fails_at(ValueTest::HasType, tables, row)
}

fn is_out_of_range(tables: FixedTables, row: &Row) -> bool
    requires { AreTables tables }
    ensures { result ≡ is_out_of_range (table_view tables.entry.document.now) (row_of row.now) }
{
    clashes(tables, row.rule) || fails_at(ValueTest::IsAllowed, tables, row)
}

fn is_missing(tables: FixedTables, row: &Row) -> bool
    requires { AreTables tables }
    ensures { result ≡ is_missing (table_view tables.entry.document.now) (row_of row.now) }
{
    row.required && tables.at(row.place).is_some() && tables.value_at(row.place, row.key).is_none()
}

fn is_refused(row_fault: RowFault, tables: FixedTables, row: &Row) -> bool
    requires { AreTables tables }
    ensures { result
        ≡ is_refused row_fault (table_view tables.entry.document.now) (row_of row.now) }
{
    match row_fault {
        RowFault::WrongType => is_ill_typed(tables, row),
        RowFault::OutOfRange => is_out_of_range(tables, row),
        RowFault::Missing => is_missing(tables, row),
    }
}

/// The path of the first of the rows that is refused.
fn first_refused(row_fault: RowFault, tables: FixedTables, rows: &[Row]) -> Option<&'static str>
    requires { AreTables tables }
    ensures { option_copied result
        ≡ first_path (is_refused row_fault (table_view tables.entry.document.now))
        (map row_of rows.now) }
{
    for row in rows {
        if is_refused(row_fault, tables, row) {
            return Some(row.path);
        }
    }
    None
}

/// Judges each key for the same fault.
pub(crate) fn judge_rows(
    alloc: Global,
    row_fault: RowFault,
    tables: FixedTables,
) -> Result<(), ConfFault>
    requires { AreTables tables }
    ensures ok { OnOk result
        (HoldsOfNone
        (λ row. IsTrue (is_refused row_fault (table_view tables.entry.document.now) row))
        rows) }
    ensures err { IfErr result
        (IsCauseNumbered (row_fault_number row_fault) (table_view tables.entry.document.now)) }
{
    match first_refused(row_fault, tables, rows()) {
        None => Ok(()),
        Some(path) => Err(row_fault.fault_at(Text::from_bytes(alloc, path.as_bytes())?)),
    }
}

/// Judges the keys that are there, and their values.
pub(crate) fn judge_document(alloc: Global, tables: FixedTables) -> Result<(), ConfFault>
    requires { AreTables tables }
    ensures ok { OnOk result (IsJudged (table_view tables.entry.document.now)) }
    ensures err { IfErr result (IsFirstIn (table_view tables.entry.document.now)) }
{
    judge_keys(alloc, tables)?;
    judge_rows(alloc, RowFault::WrongType, tables)?;
    judge_rows(alloc, RowFault::OutOfRange, tables)
}

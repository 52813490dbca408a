//! A TOML document: its version, and its tables whose keys are fixed.

ghost use Rattle.std.specs.Prelude.{◌≡◌, Some, is_some, option_and_then, option_copied, option_map};
ghost use Rattle.toml.specs.Data.{as_str, get_member};
ghost use Rattle.toml.specs.View.{table_view, view};
ghost use Rattle.conf.specs.Table.{has_place, members_at, version_in, version_of};
ghost use Rattle.conf.specs.tools.Views.{AreTables};
ghost use Rattle.conf_values.specs.Views.{table_members};

use conf_values::{TableName, Version, array_in, member, member_of, table_in};
use toml::value::Array;
use toml::{Table, Value};

// ---- the version

/// The version of that number.
fn version_of(value: &Value) -> Option<Version>
    ensures { result ≡ version_of (Some (view value.now)) }
{
    match value.as_integer() {
        Some(1) => Some(Version::One),
        Some(2) => Some(Version::Two),
        _ => None,
    }
}

/// The version that the document names: the first where it names none, and none where it names
/// another.
fn version_in(document: &Table) -> Option<Version>
    ensures { result ≡ version_in (table_view document.now) }
{
    match member(document, "version") {
        None => Some(Version::One),
        Some(value) => version_of(value),
    }
}

// ---- the tables whose keys are fixed

/// A document with its tables whose keys are fixed, so that each is looked up once.
#[derive(Clone, Copy)]
pub(crate) struct FixedTables<'d> {
    pub(crate) document: &'d Table,
    pub(crate) version: Option<Version>,
    pub(crate) gateway: Option<&'d Table>,
    pub(crate) policies: Option<&'d Array>,
    pub(crate) policy: Option<&'d Table>,
    pub(crate) sign: Option<&'d Table>,
}

impl<'d> FixedTables<'d> {
    pub(crate) fn of(document: &'d Table) -> FixedTables<'d>
        ensures document { result.document.now ≡ document.now }
        ensures tables { AreTables result }
    {
        FixedTables {
            document,
            version: version_in(document),
            gateway: table_in(document, "gateway"),
            policies: array_in(document, "policies"),
            policy: table_in(document, "policy"),
            sign: table_in(document, "sign"),
        }
    }

    /// The table at the place, where the document has it.
    pub(crate) fn at(self, place: TableName) -> Option<&'d Table>
        requires { AreTables self }
        ensures members { table_members result
            ≡ members_at (table_view self.entry.document.now) place }
        ensures there { is_some result ≡ has_place (table_view self.entry.document.now) place }
    {
        match place {
            TableName::Top => Some(self.document),
            TableName::Gateway => self.gateway,
            // an array of tables, and no table
            TableName::Policies => None,
            TableName::Policy => self.policy,
            TableName::Sign => self.sign,
        }
    }

    /// The value of that name at the place.
    pub(crate) fn value_at(self, place: TableName, name: &str) -> Option<&'d Value>
        requires { AreTables self }
        ensures { option_map (λ value. view value.now) result
            ≡ get_member name.now (members_at (table_view self.entry.document.now) place) }
    {
        member_of(self.at(place), name)
    }

    /// The text of that name at the place.
    pub(crate) fn text_at(self, place: TableName, name: &str) -> Option<&'d str>
        requires { AreTables self }
        ensures { option_copied result ≡ option_and_then as_str
            (get_member name.now (members_at (table_view self.entry.document.now) place)) }
    {
        match self.value_at(place, name) {
            None => None,
            Some(value) => value.as_str(),
        }
    }
}

//! How signatures are judged, as a document says it.

ghost use Rattle.std.specs.Prelude.{◌≡◌, [], ◌∷◌, codes, IfOk};
ghost use Rattle.std.specs.List.{AllZip};
ghost use Rattle.toml.specs.Data.{get_member};
ghost use Rattle.toml.specs.View.{array_view, table_view};
ghost use Rattle.nonces.specs.declared.limits.TheConstants.{MAX_ENTRIES};
ghost use Rattle.conf_values.specs.declared.table.Version.TheVariants.{Two};
ghost use Rattle.conf.specs.Table.{tables_of, version_in};
ghost use Rattle.conf.specs.Sections.{asked_tag, kept_nonces, selected_tag};
ghost use Rattle.conf.specs.tools.Judged.{IsJudged};
ghost use Rattle.conf.specs.tools.PolicyReads.{AreReadPolicies, HasGoodLists, IsReadPolicy};
ghost use Rattle.conf.specs.tools.SectionReads.{AreGoodLists, HaveGoodLists};
ghost use Rattle.conf.specs.tools.Views.{AreTables};
ghost use Rattle.conf_values.specs.Values.{number_or};
ghost use Rattle.conf_values.specs.Views.{table_members};

use crate::lists::components_in;
use crate::members::FixedTables;
use crate::values::{digest_use_in, nonce_use_in, read_tag, requires_expires};
use conf_values::{Version, number_in};
use settings::{DEFAULT_MAX_AGE, DEFAULT_SKEW, MAX_ENTRIES, Policies, Policy};
use sfv_text::{Memory, Text};
use std::alloc::Global;
use toml::Table;
use toml::value::Array;

/// The tag of the signatures that the policy is for, and the one that it asks of all of them.
fn tags_of(
    alloc: Global,
    version: Version,
    table: Option<&Table>,
) -> Result<(Option<Text>, Option<Text>), Memory>
    ensures { IfOk result (λ tags. tags ≡ (
      selected_tag version (table_members table.entry),
      asked_tag version (table_members table.entry),
    )) }
{
    let tag = read_tag(alloc, table)?;
    match version {
        Version::One => Ok((None, tag)),
        Version::Two => Ok((tag, None)),
    }
}

/// What the table says; without one, what holds where nothing is said.
fn policy_of(alloc: Global, version: Version, table: Option<&Table>) -> Result<Policy, Memory>
    requires { HasGoodLists (table_members table) }
    ensures { IfOk result (IsReadPolicy version (table_members table.entry)) }
{
    let (selects, tag) = tags_of(alloc, version, table)?;
    Ok(Policy {
        selects,
        max_age: number_in(table, "max-age", DEFAULT_MAX_AGE),
        skew: number_in(table, "skew", DEFAULT_SKEW),
        require_request: components_in(alloc, table, "require-request")?,
        require_response: components_in(alloc, table, "require-response")?,
        expires: requires_expires(table),
        nonce: nonce_use_in(table),
        tag,
        digest: digest_use_in(table),
    })
}

/// What the table alone says.
fn one_policy(alloc: Global, version: Version, table: Option<&Table>) -> Result<Policies, Memory>
    requires { HasGoodLists (table_members table) }
    ensures { IfOk result (AllZip (IsReadPolicy version) (table_members table.entry ∷ [])) }
{
    let mut policies = Policies::new(alloc);
    policies.push(policy_of(alloc, version, table)?)?;
    Ok(policies)
}

/// What the tables say, in order.
fn policies_in(alloc: Global, array: &Array) -> Result<Policies, Memory>
    requires request { AreGoodLists (codes "require-request") (tables_of (array_view array.now)) }
    requires response { AreGoodLists (codes "require-response") (tables_of (array_view array.now)) }
    ensures { IfOk result (AllZip (IsReadPolicy Two)
        (tables_of (array_view array.now))) }
{
    let mut policies = Policies::new(alloc);
    for value in array {
        policies.push(policy_of(alloc, Version::Two, value.as_table())?)?;
    }
    Ok(policies)
}

/// The policies of the document, by its version.
pub(crate) fn policies_of(alloc: Global, tables: FixedTables) -> Result<Policies, Memory>
    requires tables { AreTables tables }
    requires judged { IsJudged (table_view tables.document.now) }
    requires good { HaveGoodLists (table_view tables.document.now) }
    ensures { IfOk result (AreReadPolicies (table_view tables.entry.document.now)) }
{
    match tables.version {
        Some(Version::Two) => match tables.policies {
            Some(array) => policies_in(alloc, array),
            None => one_policy(alloc, Version::Two, None),
        },
        Some(Version::One) | None => one_policy(alloc, Version::One, tables.policy),
    }
}

/// How many nonces the table says; as many as possible where it says nothing.
fn nonces_in(table: Option<&Table>) -> usize
    ensures { result
        ≡ number_or MAX_ENTRIES (get_member (codes "nonces") (table_members table.entry)) }
{
    number_in(table, "nonces", MAX_ENTRIES as u64) as usize
}

/// How many nonces are remembered, by the version of the document.
pub(crate) fn nonces_of(tables: FixedTables) -> usize
    requires { AreTables tables }
    ensures { result ≡ kept_nonces (version_in (table_view tables.entry.document.now))
        (table_view tables.entry.document.now) }
{
    match tables.version {
        Some(Version::Two) => nonces_in(Some(tables.document)),
        Some(Version::One) | None => nonces_in(tables.policy),
    }
}

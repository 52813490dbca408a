//! What the values of a document say, with what holds where nothing is said.

ghost use Rattle.std.specs.Prelude.{◌≡◌, false, codes, option_and_then, unwrap_or, IfOk};
ghost use Rattle.toml.specs.Data.{as_bool, get_member};
ghost use Rattle.toml.specs.View.{table_view};
ghost use Rattle.conf_values.specs.declared.table.TableName.TheVariants.{Sign};
ghost use Rattle.conf.specs.Table.{members_at};
ghost use Rattle.conf.specs.Meaning.{configured_scheme};
ghost use Rattle.conf.specs.Sections.{digest_of, digest_use_of, is_required, nonce_use_of, seconds_of};
ghost use Rattle.conf_values.specs.Values.{tag_in};
ghost use Rattle.conf.specs.tools.Views.{AreTables};
ghost use Rattle.conf_values.specs.Views.{table_members};

use crate::members::FixedTables;
use component_ids::Scheme;
use conf_values::{TableName, text_in, text_of};
use settings::{DigestUse, NonceUse, SignDigest, expires_of_word, scheme_of_word};
use sfv_text::{Memory, Text};
use std::alloc::Global;
use toml::Table;

/// The scheme of the document; `https` where it has none.
pub(crate) fn scheme_in(document: &Table) -> Scheme
    ensures { result ≡ configured_scheme (get_member (codes "scheme") (table_view document.now)) }
{
    match text_in(document, "scheme") {
        None => Scheme::Https,
        Some(word) => scheme_of_word(word.as_bytes()).unwrap_or(Scheme::Https),
    }
}

/// The tag of the table, if it has one.
pub(crate) fn read_tag(alloc: Global, table: Option<&Table>) -> Result<Option<Text>, Memory>
    ensures { IfOk result (λ tag. tag ≡ tag_in (table_members table.entry)) }
{
    match text_of(table, "tag") {
        None => Ok(None),
        Some(tag) => Ok(Some(Text::from_bytes(alloc, tag.as_bytes())?)),
    }
}

// ---- tables of policies

/// Whether the table requires the parameter `expires`.
pub(crate) fn requires_expires(table: Option<&Table>) -> bool
    ensures { result
        ≡ is_required (get_member (codes "expires") (table_members table.entry)) }
{
    match text_of(table, "expires") {
        None => false,
        Some(word) => expires_of_word(word.as_bytes()).unwrap_or(false),
    }
}

/// What the table asks of the parameter `nonce`.
pub(crate) fn nonce_use_in(table: Option<&Table>) -> NonceUse
    ensures { result
        ≡ nonce_use_of (get_member (codes "nonce") (table_members table.entry)) }
{
    match text_of(table, "nonce") {
        None => NonceUse::Ignore,
        Some(word) => NonceUse::of_word(word.as_bytes()).unwrap_or(NonceUse::Ignore),
    }
}

/// When the table asks for a digest of the content.
pub(crate) fn digest_use_in(table: Option<&Table>) -> DigestUse
    ensures { result
        ≡ digest_use_of (get_member (codes "digest") (table_members table.entry)) }
{
    match text_of(table, "digest") {
        None => DigestUse::Ignore,
        Some(word) => DigestUse::of_word(word.as_bytes()).unwrap_or(DigestUse::Ignore),
    }
}

// ---- the table `sign`

/// The digest that `sign` asks for.
pub(crate) fn digest_in(tables: FixedTables) -> SignDigest
    requires { AreTables tables }
    ensures { result ≡ digest_of
        (get_member (codes "digest") (members_at (table_view tables.entry.document.now) Sign)) }
{
    match tables.text_at(TableName::Sign, "digest") {
        None => SignDigest::No,
        Some(word) => SignDigest::of_word(word.as_bytes()).unwrap_or(SignDigest::No),
    }
}

/// After how many seconds a signature expires.
pub(crate) fn seconds_in(tables: FixedTables) -> Option<u64>
    requires { AreTables tables }
    ensures { result ≡ seconds_of
        (get_member (codes "expires-after")
        (members_at (table_view tables.entry.document.now) Sign)) }
{
    let Some(value) = tables.value_at(TableName::Sign, "expires-after") else {
        return None;
    };
    match value.as_integer() {
        Some(number) if number >= 0 => Some(number as u64),
        _ => None,
    }
}

/// Whether the parameter `alg` is given.
pub(crate) fn has_alg(tables: FixedTables) -> bool
    requires { AreTables tables }
    ensures { result ≡ unwrap_or (option_and_then as_bool
        (get_member (codes "alg") (members_at (table_view tables.entry.document.now) Sign))) false }
{
    match tables.value_at(TableName::Sign, "alg") {
        None => false,
        Some(value) => value.as_bool().unwrap_or(false),
    }
}

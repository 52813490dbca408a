//! The tags of policies.

ghost use Rattle.std.specs.Prelude.{◌≡◌, Some, map, option_copied};
ghost use Rattle.std.specs.List.{list_any};
ghost use Rattle.toml.specs.View.{view};
ghost use Rattle.conf_values.specs.Parts.{members_in};
ghost use Rattle.conf_values.specs.Values.{have_distinct_tags, is_same_tag, tag_in};

use crate::lookups::text_of;
use toml::Value;

/// Whether the tags are one, or both are lacking.
fn is_same_tag(tag: Option<&str>, other: Option<&str>) -> bool
    ensures { result ≡ is_same_tag (option_copied tag.entry) (option_copied other.entry) }
{
    match (tag, other) {
        (Some(tag), Some(other)) => tag == other,
        (None, None) => true,
        _ => false,
    }
}

/// Whether one of the tables has this tag, or lacks one too.
fn has_tag(tables: &[Value], tag: Option<&str>) -> bool
    ensures { result ≡ list_any (λ other. is_same_tag (option_copied tag.entry) (tag_in other))
        (map (λ value. members_in (Some (view value))) tables.now) }
{
    for table in tables {
        if is_same_tag(tag, text_of(table.as_table(), "tag")) {
            return true;
        }
    }
    false
}

/// Whether no two of the tables have one tag, or none.
pub(crate) fn have_distinct_tags(tables: &[Value]) -> bool
    ensures { result
        ≡ have_distinct_tags (map (λ value. members_in (Some (view value))) tables.now) }
{
    for index in 0..tables.len() {
        let tag = text_of(tables[index].as_table(), "tag");
        if has_tag(&tables[index + 1..], tag) {
            return false;
        }
    }
    true
}

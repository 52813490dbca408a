//! How many seconds ahead a nonce may be kept.

ghost use Rattle.std.specs.Prelude.{◌≡◌, ◌≤◌, nat_lt};
ghost use Rattle.std.specs.List.{list_any};
ghost use Rattle.toml.specs.View.{array_view};
ghost use Rattle.nonces.specs.declared.limits.TheConstants.{MAX_WINDOW};
ghost use Rattle.conf_values.specs.Parts.{tables_of};
ghost use Rattle.conf_values.specs.Values.{window};
ghost use Rattle.conf_values.specs.Views.{table_members};

use crate::lookups::number_in;
use settings::{DEFAULT_MAX_AGE, DEFAULT_SKEW, MAX_WINDOW};
use toml::Table;
use toml::value::Array;

/// Whether the window of the table is longer than so many seconds.
pub fn has_window_over(table: Option<&Table>, most: u64) -> bool
    requires { most ≤ MAX_WINDOW }
    ensures { result ≡ nat_lt most (window (table_members table.entry)) }
{
    let max_age = number_in(table, "max-age", DEFAULT_MAX_AGE);
    let skew = number_in(table, "skew", DEFAULT_SKEW);
    max_age.saturating_add(skew.saturating_mul(2)) > most
}

/// Whether the window of one of the tables is longer than `MAX_WINDOW`.
pub fn has_long_window(array: &Array) -> bool
    ensures { result ≡ list_any (λ pairs. nat_lt MAX_WINDOW (window pairs))
        (tables_of (array_view array.now)) }
{
    for value in array {
        if has_window_over(value.as_table(), MAX_WINDOW) {
            return true;
        }
    }
    false
}

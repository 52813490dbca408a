//! The form of a field's value that parameters ask for.

ghost use Rattle.std.specs.Prelude.{◌≡◌};
ghost use Rattle.component_values.specs.Forms.{form_of};
ghost use Rattle.component_values.specs.tools.Rows.{form_meant};

use component_ids::has_param;
use sfv_text::Params;

/// The form of a field's value that parameters ask for (RFC 9421 section 2.1).
#[derive(Clone, Copy)]
pub(crate) enum Form<'a> {
    /// `bs`: each line by itself as a Byte Sequence (section 2.1.3).
    ByteSequences,
    /// `key`: the member of this key (section 2.1.2).
    Member(&'a [u8]),
    /// `sf`: the strict text (section 2.1.1).
    Strict,
    /// None of them: the combined value itself.
    Plain,
}

/// The form that the parameters ask for.
pub(crate) fn form_of(params: &Params) -> Form<'_>
    ensures { form_meant result ≡ form_of params.now }
{
    if params.is_empty() {
        return Form::Plain;
    }
    if has_param(params, b"bs") {
        return Form::ByteSequences;
    }
    if let Some(key) = params.string(b"key") {
        return Form::Member(key.bytes());
    }
    if has_param(params, b"sf") {
        return Form::Strict;
    }
    Form::Plain
}

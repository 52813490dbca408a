//! Normal lines.

ghost use Rattle.std.specs.Prelude.{◌≡◌, ◌++◌, OnOk, codes, map};
ghost use Rattle.std.specs.List.{join_by};
ghost use Rattle.std.specs.Str.{str_to_ascii_lowercase};
ghost use Rattle.msg_head.specs.Values.{value};

use line_rewrites::{append_value, has_value};
use msg_head::LineView;
use sfv_text::{Memory, Text};
use std::alloc::Global;
use std::marker::Model;

/// A field line that is clean: lines of one name, joined. A contract sees it as that line.
#[derive(Drop)]
pub(crate) struct NormalLine<'m> {
    name: &'m [u8],
    // The raw value of each of the lines.
    raws: Vec<&'m [u8]>,
}

impl<'m> Model for NormalLine<'m> {
    ghost use Rattle.msg_head.specs.Lines.{FieldLine};
    ghost use Rattle.std.specs.Prelude.{◌<◌, length, map};
    ghost use Rattle.normal_forms.specs.tools.Lines.{joined_line};

    ghost Value = { FieldLine };

    ghost view = { λ l. joined_line l.name.now (map (λ raw. raw.now) l.raws.items) };

    ghost invariant = { λ l. 0 < length l.raws.items };
}

impl<'m> NormalLine<'m> {
    ghost use Rattle.std.specs.Prelude.{◌≡◌, ◌++◌, IfOk, OnOk, codes};
    ghost use Rattle.msg_body.specs.SameFields.{name_of};
    ghost use Rattle.msg_head.specs.Lines.{line_text};
    ghost use Rattle.msg_head.specs.Names.{has_name};
    ghost use Rattle.msg_head.specs.Values.{has_bytes};
    ghost use Rattle.msg_head.specs.Views.{field_line_of};
    ghost use Rattle.normal_forms.specs.tools.Lines.{clean_line};

    /// The line, made clean.
    pub(crate) fn of(alloc: Global, line: LineView<'m>) -> Result<NormalLine<'m>, Memory>
        ensures { IfOk result (λ clean. clean ≡ clean_line (field_line_of line.entry)) }
    {
        let mut raws = Vec::with_capacity(alloc, 1)?;
        raws.push(line.raw)?;
        Ok(NormalLine {
            name: line.name,
            raws,
        })
    }

    /// A line of its name.
    pub(crate) fn named(&self) -> LineView<'m>
        ensures { name_of (field_line_of result) ≡ self.now.name }
    {
        LineView {
            name: self.name,
            raw: b"",
        }
    }

    /// Whether it has the name of the other.
    pub(crate) fn has_name_of(&self, other: &NormalLine<'_>) -> bool
        ensures { result ≡ has_name other.now.name self.now }
    {
        self.name.eq_ignore_ascii_case(other.name)
    }

    /// Whether it has a value, and not the empty one.
    pub(crate) fn has_value(&self) -> bool
        ensures { result ≡ has_bytes self.now.raw }
    {
        match self.raws.as_slice() {
            [raw] => has_value(LineView {
                name: b"",
                raw: *raw,
            }),
            _ => true,
        }
    }

    /// Joins the other, which comes after it.
    pub(crate) fn join(&mut self, other: &NormalLine<'m>) -> Result<(), Memory>
        ensures { OnOk result (self.new ≡ record {
          name = self.old.name;
          raw = self.old.raw ++ (codes ", " ++ other.now.raw);
        }) }
    {
        self.raws.extend_from_slice(other.raws.as_slice())?;
        Ok(())
    }

    /// Adds the line at the end.
    pub(crate) fn append_to(&self, text: &mut Text) -> Result<(), Memory>
        ensures { OnOk result (text.new ≡ text.old ++ line_text self.now) }
    {
        append_name(self.name, text)?;
        append_joined(self.raws.as_slice(), text)?;
        text.append(b"\r\n")
    }
}

/// Adds the name in lower case at the end.
pub(crate) fn append_lowered(name: &[u8], text: &mut Text) -> Result<(), Memory>
    ensures { OnOk result (text.new ≡ text.old ++ str_to_ascii_lowercase name.now) }
{
    for byte in name {
        text.push(byte.to_ascii_lowercase())?;
    }
    Ok(())
}

/// Adds the name in lower case and a colon at the end.
fn append_name(name: &[u8], text: &mut Text) -> Result<(), Memory>
    ensures { OnOk result (text.new ≡ text.old ++ (str_to_ascii_lowercase name.now ++ codes ":")) }
{
    append_lowered(name, text)?;
    text.append(b":")
}

/// Adds a comma, a space and the value of the raw value at the end.
fn append_after_comma(raw: &[u8], text: &mut Text) -> Result<(), Memory>
    ensures { OnOk result (text.new ≡ text.old ++ (codes ", " ++ value raw.now)) }
{
    text.append(b", ")?;
    append_value(raw, text)
}

/// Adds the values of the raw values at the end, with a comma and a space between them.
fn append_joined(raws: &[&[u8]], text: &mut Text) -> Result<(), Memory>
    ensures { OnOk result (text.new ≡ text.old ++ join_by (λ value. value) (codes ", ")
        (map value (map (λ raw. raw.now) raws.now))) }
{
    let Some((first, others)) = raws.split_first() else {
        return Ok(());
    };
    append_value(*first, text)?;
    for raw in others {
        append_after_comma(*raw, text)?;
    }
    Ok(())
}

//! Which fields are structured, and how.

ghost use Rattle.std.specs.Prelude.{◌≡◌, IfOk, OnOk, OnErr};
ghost use Rattle.std.specs.FinMap as map;
ghost use Rattle.component_ids.specs.Types.{kind_in, standard_types};

use sfv_text::Memory;
use std::alloc::Global;
use std::collections::BTreeMap;
use std::marker::Model;

/// The kind of structured field that a field name is defined as (RFC 9651 section 3).
#[derive(Clone, Copy, PartialEq, Eq)]
pub enum FieldKind {
    /// An Item (section 3.3).
    Item,
    /// A List (section 3.1).
    List,
    /// A Dictionary (section 3.2).
    Dictionary,
}

/// Which fields are structured, and how, by their names in lower case. No message says it: an
/// application has to know it (RFC 9421 section 2.1.1).
#[derive(Drop)]
pub struct Types {
    kinds: BTreeMap<Vec<u8>, FieldKind>,
    alloc: Global,
}

impl Model for Types {
    ghost use Rattle.std.specs.FinMap as map;
    ghost use Rattle.component_ids.specs.Types.{KindMap};
    ghost use Rattle.component_ids.specs.tools.Kinds.{kinds_code};
    ghost use Rattle.byte_grammar.specs.tools.ByBytes.{by_bytes};

    ghost Value = { KindMap };

    ghost coded = { kinds_code };

    ghost view = { λ t. map.from_entries (by_bytes t.kinds.entries) };
}

impl Types {
    /// Those of `signature-input`, `signature` and `accept-signature` (RFC 9421 sections 4.1, 4.2
    /// and 5.1) and of `content-digest` (RFC 9530 section 2): each is a Dictionary.
    pub fn standard(alloc: Global) -> Result<Types, Memory>
        ensures { IfOk result (λ types. types ≡ standard_types) }
    {
        let mut types = Types {
            kinds: BTreeMap::new(alloc),
            alloc,
        };
        types.add_standard()?;
        Ok(types)
    }

    /// Adds those that are standard.
    fn add_standard(&mut self) -> Result<(), Memory>
        requires { self.old ≡ map.empty }
        ensures { OnOk result (self.new ≡ standard_types) }
    {
        self.add(b"content-digest", FieldKind::Dictionary)?;
        self.add(b"accept-signature", FieldKind::Dictionary)?;
        self.add(b"signature", FieldKind::Dictionary)?;
        self.add(b"signature-input", FieldKind::Dictionary)
    }

    /// Gives the name, which is to be in lower case, this kind, in place of an earlier one.
    pub fn add(&mut self, name: &[u8], kind: FieldKind) -> Result<(), Memory>
        ensures ok { OnOk result (self.new ≡ map.insert self.old name.now kind) }
        ensures err { OnErr result (self.new ≡ self.old) }
    {
        let mut key = Vec::new(self.alloc);
        key.extend_from_slice(name)?;
        self.kinds.insert(key, kind)?;
        Ok(())
    }

    /// The kind of the field of that name, in lower case, where it is structured.
    pub fn kind_of(&self, name: &[u8]) -> Option<FieldKind>
        ensures { result ≡ kind_in self.now name.now }
    {
        self.kinds.get(name).copied()
    }
}

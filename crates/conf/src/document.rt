//! A TOML document.

ghost use Rattle.std.specs.Prelude.{IfOk, IfErr};
ghost use Rattle.toml.specs.View.{table_view};
ghost use Rattle.conf.specs.Meaning.{IsDocument};
ghost use Rattle.conf.specs.tools.Judged.{IsNotToml};

use crate::fault::ConfFault;
use std::alloc::Global;
use toml::Table;

/// The document of the text.
pub(crate) fn read_document(alloc: Global, text: &[u8]) -> Result<Table, ConfFault>
    ensures ok { IfOk result (λ table. IsDocument text.now (table_view table)) }
    ensures err { IfErr result (IsNotToml text.now) }
{
    match toml::table_from_slice(alloc, text) {
        Ok(table) => Ok(table),
        Err(error) => {
            if error.is_memory() {
                Err(ConfFault::Memory)
            } else {
                Err(ConfFault::NotToml)
            }
        }
    }
}

//! The configuration of a command.

ghost use Rattle.std.specs.Prelude.{◌≡◌, ◌+◌, ◌≤◌, Some, option_map, IfOk, IfErr, IfNone};
ghost use Rattle.hms_io.specs.Files.{KeepsFiles};
ghost use Rattle.conf.specs.ConfMeaning.{meaning};
ghost use Rattle.intake.specs.Configured.{IsConfigured, IsConfRefused};
ghost use Rattle.intake.specs.Files.{HasFound};
ghost use Rattle.refusals.specs.declared.refusal.TheConstants.{MAX_CONF_BYTES};
ghost use Rattle.refusals.specs.declared.refusal.Refusal.TheVariants.{Of};
ghost use Rattle.refusals.specs.declared.role.Role.TheVariants.{Conf as OfConf};
ghost use Rattle.intake.specs.Stops.{IfStopped, IsRefusalFor, CountsStop};

use crate::stop::Stop;
use conf::{Conf, empty_conf, read_conf};
use hms_io::{Shelf, take_file};
use refusals::{MAX_CONF_BYTES, Role};
use std::alloc::Global;

/// Reads the configuration in the named file.
fn read_named<F: Shelf>(alloc: Global, name: &str, shelf: &mut F) -> Result<Conf, Stop>
    ensures ok { IfOk result (λ conf. HasFound (F.files shelf.old) (Some name.now) (λ found.
        IsConfigured (Some name.now) found (meaning conf))) }
    ensures refused { IfErr result (λ stop. IfStopped stop (λ refusal.
        HasFound (F.files shelf.old) (Some name.now) (λ found.
        IsRefusalFor (IsConfRefused (Some name.now) found) (λ cause. Of OfConf cause) refusal))) }
    ensures files { KeepsFiles (F.files shelf.old) (F.files shelf.new) }
    ensures cause { CountsStop (F.faults shelf.old) (F.faults shelf.new) result }
    ensures later { F.faults shelf.old ≤ F.faults shelf.new }
    ensures asked { F.asked shelf.new ≤ F.asked shelf.old + 1 }
    ensures reached { F.reached shelf.new ≤ F.reached shelf.old + (MAX_CONF_BYTES + 1) }
{
    let text = match take_file(alloc, shelf, name, MAX_CONF_BYTES) {
        Ok(text) => text,
        Err(error) => return Err(Stop::of_file(Role::Conf, MAX_CONF_BYTES, error)),
    };
    Ok(read_conf(alloc, text.bytes())?)
}

/// Reads the configuration in the named file, or that of the empty text where none is named.
pub fn read_configuration<F: Shelf>(
    alloc: Global,
    name: Option<&str>,
    shelf: &mut F,
) -> Result<Conf, Stop>
    ensures ok { IfOk result (λ conf.
        HasFound (F.files shelf.old) (option_map (λ word. word.now) name.entry) (λ found.
        IsConfigured (option_map (λ word. word.now) name.entry) found (meaning conf))) }
    ensures refused { IfErr result (λ stop. IfStopped stop (λ refusal.
        HasFound (F.files shelf.old) (option_map (λ word. word.now) name.entry) (λ found.
        IsRefusalFor (IsConfRefused (option_map (λ word. word.now) name.entry) found)
        (λ cause. Of OfConf cause) refusal))) }
    ensures files { KeepsFiles (F.files shelf.old) (F.files shelf.new) }
    ensures cause { CountsStop (F.faults shelf.old) (F.faults shelf.new) result }
    ensures later { F.faults shelf.old ≤ F.faults shelf.new }
    ensures asked { F.asked shelf.new ≤ F.asked shelf.old + 1 }
    ensures reached { F.reached shelf.new ≤ F.reached shelf.old + (MAX_CONF_BYTES + 1) }
    ensures unasked { IfNone name.entry (shelf.new ≡ shelf.old) }
{
    match name {
        None => Ok(empty_conf(alloc)?),
        Some(name) => read_named(alloc, name, shelf),
    }
}

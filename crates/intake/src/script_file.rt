//! The script of a command, in a file.

ghost use Rattle.std.specs.Prelude.{◌≡◌, ◌+◌, ◌≤◌, Some, option_map, IfOk, IfErr, IfNone};
ghost use Rattle.hms_io.specs.Files.{KeepsFiles};
ghost use Rattle.intake.specs.Files.{HasFound};
ghost use Rattle.intake.specs.Scripts.{IsScripted, IsScriptRefused};
ghost use Rattle.refusals.specs.declared.refusal.Refusal.TheVariants.{Of};
ghost use Rattle.rewrite_script.specs.declared.limits.TheConstants.{MAX_SCRIPT_BYTES};
ghost use Rattle.refusals.specs.declared.role.Role.TheVariants.{Script as OfScript};
ghost use Rattle.intake.specs.Stops.{IfStopped, IsRefusalFor, CountsStop};

use crate::stop::Stop;
use hms_io::{Shelf, take_file};
use refusals::Role;
use rewrite_script::{MAX_SCRIPT_BYTES, Script, read_script};
use std::alloc::Global;

/// Reads the script in the named file.
fn read_named_script<F: Shelf>(alloc: Global, name: &str, shelf: &mut F) -> Result<Script, Stop>
    ensures ok { IfOk result (λ script. HasFound (F.files shelf.old) (Some name.now) (λ found.
        IsScripted (Some name.now) found script)) }
    ensures refused { IfErr result (λ stop. IfStopped stop (λ refusal.
        HasFound (F.files shelf.old) (Some name.now) (λ found.
        IsRefusalFor (IsScriptRefused (Some name.now) found)
        (λ cause. Of OfScript cause) refusal))) }
    ensures files { KeepsFiles (F.files shelf.old) (F.files shelf.new) }
    ensures cause { CountsStop (F.faults shelf.old) (F.faults shelf.new) result }
    ensures later { F.faults shelf.old ≤ F.faults shelf.new }
    ensures asked { F.asked shelf.new ≤ F.asked shelf.old + 1 }
    ensures reached { F.reached shelf.new ≤ F.reached shelf.old + (MAX_SCRIPT_BYTES + 1) }
{
    let text = match take_file(alloc, shelf, name, MAX_SCRIPT_BYTES) {
        Ok(text) => text,
        Err(error) => return Err(Stop::of_file(Role::Script, MAX_SCRIPT_BYTES, error)),
    };
    Ok(read_script(alloc, text.bytes())?)
}

/// Reads the script in the named file, or takes that without steps where none is named.
pub fn read_script_file<F: Shelf>(
    alloc: Global,
    name: Option<&str>,
    shelf: &mut F,
) -> Result<Script, Stop>
    ensures ok { IfOk result (λ script.
        HasFound (F.files shelf.old) (option_map (λ word. word.now) name.entry) (λ found.
        IsScripted (option_map (λ word. word.now) name.entry) found script)) }
    ensures refused { IfErr result (λ stop. IfStopped stop (λ refusal.
        HasFound (F.files shelf.old) (option_map (λ word. word.now) name.entry) (λ found.
        IsRefusalFor (IsScriptRefused (option_map (λ word. word.now) name.entry) found)
        (λ cause. Of OfScript cause) refusal))) }
    ensures files { KeepsFiles (F.files shelf.old) (F.files shelf.new) }
    ensures cause { CountsStop (F.faults shelf.old) (F.faults shelf.new) result }
    ensures later { F.faults shelf.old ≤ F.faults shelf.new }
    ensures asked { F.asked shelf.new ≤ F.asked shelf.old + 1 }
    ensures reached { F.reached shelf.new ≤ F.reached shelf.old + (MAX_SCRIPT_BYTES + 1) }
    ensures unasked { IfNone name.entry (shelf.new ≡ shelf.old) }
{
    match name {
        None => Ok(Script::new(alloc)),
        Some(name) => read_named_script(alloc, name, shelf),
    }
}

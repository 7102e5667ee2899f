ghost use Rattle.std.specs.Prelude.{◌≡◌, ℕ, List, All, IfOk, IfErr, OnOk};
ghost use Rattle.std.specs.Str.{IsUtf8};
ghost use Rattle.pch_io.specs.Outside.{Loads};
ghost use Rattle.script_defs.specs.declared.limits.TheConstants.{MAX_SCRIPT_BYTES};
ghost use Rattle.script_defs.specs.declared.command.FileUse.{FileUse};
ghost use Rattle.script_defs.specs.Scripts.{IsScript};
ghost use Rattle.script_defs.specs.Texts.{ScriptText};
ghost use Rattle.run_script.specs.Views.{script_of};
ghost use Rattle.session_load.specs.Usable.{ScriptCause};

use crate::fault::NoScript;
use pch_io::Store;
use run_script::{Script, read_script};
use script_defs::MAX_SCRIPT_BYTES;
use std::alloc::Global;

/// Loads and reads the script of this name: its value, or why there is none. The names of its files
/// are texts, so that the files can be loaded.
pub fn load_script<S: Store>(alloc: Global, store: &mut S, name: &str) -> Result<Script, NoScript>
    ensures files { S.files store.new ≡ S.files store.old }
    ensures calm { OnOk result (S.faults store.new ≡ S.faults store.old) }
    ensures value { IfOk result (λ s. (bytes : List ℕ)
        × Loads (S.files store.old) name.now MAX_SCRIPT_BYTES bytes
        × ScriptText bytes (script_of s)) }
    ensures script { IfOk result (λ s. IsScript (script_of s)) }
    ensures names { IfOk result (λ s. All (λ (u : FileUse). IsUtf8 u.name) s.files) }
    ensures cause { IfErr result (ScriptCause (S.files store.old) (S.faults store.old)
        (S.faults store.new) name.now) }
{
    let bytes = match store.load(alloc, name, MAX_SCRIPT_BYTES as u64) {
        Ok(bytes) => bytes,
        Err(fail) => return Err(NoScript::Load(fail)),
    };
    match read_script(alloc, &bytes) {
        Ok(script) => Ok(script),
        Err(error) => Err(NoScript::Read(error)),
    }
}

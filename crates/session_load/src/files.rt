ghost use Rattle.std.specs.Prelude.{◌≡◌, ◌<◌, ◌≤◌, ◌+◌, ◌⊎◌, ℕ, List, All, length, map, [], ◌∷◌, ◌++◌, IfOk, IfErr, OnOk};
ghost use Rattle.std.specs.Str.{IsUtf8};
ghost use Rattle.script_defs.specs.declared.command.FileUse.{FileUse as Use};
ghost use Rattle.script_defs.specs.declared.command.Kind.TheVariants as kinds;
ghost use Rattle.run_actors.specs.Loading.{contents_of, AreOfKinds};
ghost use Rattle.run_actors.specs.declared.loaded.Loaded.{Loaded as LoadedFile};
ghost use Rattle.pch_io.specs.declared.store.LoadFail.TheVariants.{NoMemory as NoMemoryToLoad};
ghost use Rattle.session_load.specs.declared.fault.FileFault.TheVariants.{Load};
ghost use Rattle.session_load.specs.declared.limits.TheConstants.{MAX_SESSION_BYTES};
ghost use Rattle.session_load.specs.Usable.{kind_limit, IsContentOf, IsOfSize, AreUsable, FileCause, StopsAt};
ghost use Rattle.net_defs.specs.Specifications.{IsSpecFault};
ghost use Rattle.net_defs.specs.declared.specification.SpecError.TheVariants as spec_errors;

use crate::fault::{FileFault, NotUsable};
use crate::limits::MAX_SESSION_BYTES;
use blif_defs::MAX_BYTES;
use bundle_defs::MAX_BUNDLE_BYTES;
use netlist::{SpecError, read_specification};
use pch_io::{LoadFail, Store};
use run_actors::Loaded;
use run_script::{FileUse, Kind};
use std::alloc::Global;
use std::str;
use std::sync::Arc;

/// The most bytes that a file may have that is read as this kind.
fn kind_limit(kind: Kind) -> u64
    ensures { result ≡ kind_limit kind }
{
    match kind {
        Kind::Spec => MAX_BYTES as u64,
        Kind::Bundle => MAX_BUNDLE_BYTES,
    }
}

/// What the bytes hold that are read as this kind.
fn contents(alloc: Global, kind: Kind, bytes: Vec<u8>) -> Result<Loaded, SpecError>
    ensures holds { IfOk result (λ l. IsContentOf kind bytes.items (contents_of l)) }
    ensures kind { IfErr result (λ _. kind ≡ kinds.Spec) }
    ensures fault { IfErr result (λ e. (e ≡ spec_errors.NoMemory) ⊎ IsSpecFault bytes.items e) }
{
    match kind {
        Kind::Spec => {
            let net = read_specification(alloc, &bytes)?;
            match Arc::new(alloc, net) {
                Ok(net) => Ok(Loaded::Spec(net)),
                Err(_) => Err(SpecError::NoMemory),
            }
        }
        Kind::Bundle => Ok(Loaded::Bundle(bytes)),
    }
}

/// Loads one file, where those before it have so many bytes, and answers what it holds and how many
/// bytes it has.
fn load_file<S: Store>(
    alloc: Global,
    store: &mut S,
    file: &FileUse,
    used: u64,
) -> Result<(Loaded, u64), FileFault>
    requires name { IsUtf8 file.now.name }
    requires used { used ≤ MAX_SESSION_BYTES }
    ensures files { S.files store.new ≡ S.files store.old }
    ensures calm { OnOk result (S.faults store.new ≡ S.faults store.old) }
    ensures usable { IfOk result (λ p.
        IsOfSize (S.files store.old) used file.now (contents_of p.0) p.1) }
    ensures within { IfOk result (λ p. used + p.1 ≤ MAX_SESSION_BYTES) }
    ensures cause { IfErr result (FileCause (S.files store.old) (S.faults store.old)
        (S.faults store.new) used file.now) }
{
    let Ok(name) = str::from_utf8(file.name.bytes()) else {
        unreachable!();
    };
    let limit = kind_limit(file.kind).min(MAX_SESSION_BYTES - used);
    let bytes = match store.load(alloc, name, limit) {
        Ok(bytes) => bytes,
        Err(fail) => return Err(FileFault::Load(fail)),
    };
    let size = bytes.len() as u64;
    match contents(alloc, file.kind, bytes) {
        Ok(loaded) => Ok((loaded, size)),
        Err(error) => Err(FileFault::Specification(error)),
    }
}

/// Puts a loaded file behind the others.
fn push_file(files: &mut Vec<Loaded>, loaded: Loaded) -> Result<(), FileFault>
    ensures pushed { OnOk result (files.new.items ≡ files.old.items ++ loaded ∷ []) }
    ensures memory { IfErr result (λ e. e ≡ Load NoMemoryToLoad) }
{
    match files.push(loaded) {
        Ok(()) => Ok(()),
        Err(_) => Err(FileFault::Load(LoadFail::NoMemory)),
    }
}

/// Loads one file more, where those before it have so many bytes, and answers how many bytes it has.
fn load_next<S: Store>(
    alloc: Global,
    store: &mut S,
    file: &FileUse,
    used: u64,
    files: &mut Vec<Loaded>,
) -> Result<u64, FileFault>
    requires name { IsUtf8 file.now.name }
    requires used { used ≤ MAX_SESSION_BYTES }
    ensures files { S.files store.new ≡ S.files store.old }
    ensures calm { OnOk result (S.faults store.new ≡ S.faults store.old) }
    ensures usable { IfOk result (λ size. (l : LoadedFile)
        × IsOfSize (S.files store.old) used file.now (contents_of l) size
        × (files.new.items ≡ files.old.items ++ l ∷ [])) }
    ensures within { IfOk result (λ size. used + size ≤ MAX_SESSION_BYTES) }
    ensures cause { IfErr result (FileCause (S.files store.old) (S.faults store.old)
        (S.faults store.new) used file.now) }
{
    let (loaded, size) = match load_file(alloc, store, file, used) {
        Ok(loaded) => loaded,
        Err(fault) => return Err(fault),
    };
    match push_file(files, loaded) {
        Ok(()) => Ok(size),
        Err(fault) => Err(fault),
    }
}

/// Loads the files of a script in their order, up to the first that can't be used. Each may have as
/// many bytes as its kind allows, or what the files before it leave of `MAX_SESSION_BYTES` if that is
/// less. Each name is to be the UTF-8 of a text, as the names of a script are.
pub fn load_files<S: Store>(
    alloc: Global,
    store: &mut S,
    uses: &[FileUse],
) -> Result<Vec<Loaded>, NotUsable>
    requires names { All (λ (u : Use). IsUtf8 u.name) uses.now }
    requires few { length uses.now ≤ 65536 }
    ensures files { S.files store.new ≡ S.files store.old }
    ensures calm { OnOk result (S.faults store.new ≡ S.faults store.old) }
    ensures usable { IfOk result (λ l. AreUsable (S.files store.old) 0 uses.now
        (map contents_of l.items)) }
    ensures kinds { IfOk result (λ l. AreOfKinds uses.now (map contents_of l.items)) }
    ensures number { IfErr result (λ n. n.file < length uses.now) }
    ensures fault { IfErr result (λ n. StopsAt (S.files store.old) (S.faults store.old)
        (S.faults store.new) 0 uses.now n.file n.fault) }
{
    let mut files = Vec::new(alloc);
    let mut used = 0;
    for (i, file) in uses.iter().enumerate() {
        match load_next(alloc, store, file, used, &mut files) {
            Ok(size) => used += size,
            Err(fault) => {
                return Err(NotUsable {
                    file: i as u32,
                    fault,
                });
            }
        }
    }
    Ok(files)
}

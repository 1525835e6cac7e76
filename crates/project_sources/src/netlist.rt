//! From the files of a design to its netlist.
ghost use Rattle.std.specs.Prelude.{◌≡◌, ◌⊎◌, ◌<◌, ◌≤◌, ◌^◌, ℕ, List, length, All, IfErr, IfOk};
ghost use Rattle.mcy_base.specs.declared.file.SourceFile.{SourceFile as File};
ghost use Rattle.netlist_core.specs.declared.raw.RawNetlist.{RawNetlist};
ghost use Rattle.source_trees.specs.Files.{AreRead};
ghost use Rattle.source_faults.specs.declared.fault.SourceError.{SourceError as Error};
ghost use Rattle.project_sources.specs.Netlists.{HasNetlist, HasNoNetlist, IsNetlistOf, AreUnread, IsUnmade};

use crate::checked::CheckedNetlist;
use hier_once::{ElabError, elaborate};
use mcy_base::SourceFile;
use source_faults::{SourceError, elab_error, read_error};
use source_trees::{ReadError, read_modules};
use std::alloc::{AllocError, Global};
use vlog_syntax::Module;

/// Why files have no netlist.
#[derive(Drop)]
pub enum NetlistError {
    /// The sources are refused.
    Source(SourceError),
    /// There was no memory.
    Memory,
}

impl From<AllocError> for NetlistError {
    ghost use Rattle.project_sources.specs.declared.netlist.NetlistError.TheVariants.{Memory};

    ghost from_gives = { λ _ e. e ≡ Memory };

    fn from(_: AllocError) -> NetlistError {
        NetlistError::Memory
    }
}

/// The modules of the files.
pub fn read_sources(alloc: Global, files: &[SourceFile]) -> Result<Vec<Module>, NetlistError>
    requires few { length files.now ≤ 65536 }
    requires short { All (λ f. length f.bytes < 2 ^ 31) files.now }
    ensures modules { IfOk result (λ ms. AreRead files.now ms.items) }
    ensures refused { IfErr result (AreUnread files.now) }
{
    match read_modules(alloc, files) {
        Ok(modules) => Ok(modules),
        Err(ReadError::Memory) => Err(NetlistError::Memory),
        Err(error) => Err(NetlistError::Source(read_error(alloc, files, error)?)),
    }
}

/// The netlist of the files, whose top has this name: their modules, elaborated.
pub fn read_netlist(
    alloc: Global,
    files: &[SourceFile],
    top: &str,
) -> Result<CheckedNetlist, NetlistError>
    requires few { length files.now ≤ 65536 }
    requires short { All (λ f. length f.bytes < 2 ^ 31) files.now }
    ensures elaborates { IfOk result (IsNetlistOf files.now top.now) }
    ensures netlist { IfOk result (HasNetlist files.now top.now) }
    ensures refused { IfErr result (IsUnmade files.now top.now) }
{
    let modules = read_sources(alloc, files)?;
    match elaborate(alloc, &modules, top) {
        Ok(netlist) => Ok(CheckedNetlist::new(netlist)),
        Err(ElabError::Memory) => Err(NetlistError::Memory),
        Err(error) => Err(NetlistError::Source(elab_error(alloc, files, error)?)),
    }
}

/// Files have one answer: one netlist or one fault, and never both. So each fault comes just where `read_netlist` says.
pub fn one_answer()
    ensures netlists { (files : List File) (top : List ℕ) (n m : RawNetlist) → IsNetlistOf files top n → IsNetlistOf files top m → n ≡ m }
    ensures told { (files : List File) (top : List ℕ) (n : RawNetlist) → HasNetlist files top n → IsNetlistOf files top n }
    ensures either { (files : List File) (top : List ℕ) (n : RawNetlist) (e : Error) → HasNetlist files top n → ¬ HasNoNetlist files top e }
    ensures faults { (files : List File) (top : List ℕ) (x y : Error) → HasNoNetlist files top x → HasNoNetlist files top y → x ≡ y }
{}

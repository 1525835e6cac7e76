//! From the bytes of sources to their modules.
ghost use Rattle.std.specs.Prelude.{◌≡◌, ◌≢◌, ◌<◌, ◌≤◌, ◌^◌, length, List, All, IfErr, IfOk};
ghost use Rattle.mcy_base.specs.declared.file.SourceFile.{SourceFile as File};
ghost use Rattle.vlog_syntax.specs.declared.module.Module.{Module as Tree};
ghost use Rattle.vlog_syntax.specs.Nesting.{module_nest};
ghost use Rattle.source_trees.specs.Files.{AreMeantBy, AreRead};
ghost use Rattle.source_trees.specs.Faults.{IsUnread};
ghost use Rattle.source_trees.specs.declared.error.ReadError.{ReadError as Error};
ghost use Rattle.source_trees.specs.declared.error.ReadError.TheVariants.{Memory};

use crate::error::ReadError;
use crate::given::give_files;
use crate::texts::check_texts;
use crate::trees::parse_files;
use mcy_base::SourceFile;
use std::alloc::Global;
use vlog_syntax::Module;

/// The modules of the files, in their order.
///
/// All files have to be texts before any of them is cut into tokens, and the directives of all are carried out before any is
/// parsed. So where several files have faults, one that is no text comes first, then the first fault of tokens or
/// directives, and then the first one of trees.
pub fn read_modules(alloc: Global, files: &[SourceFile]) -> Result<Vec<Module>, ReadError>
    requires few { length files.now ≤ 65536 }
    requires short { All (λ f. length f.bytes < 2 ^ 31) files.now }
    ensures modules { IfOk result (λ ms. AreRead files.now ms.items) }
    ensures nesting { IfOk result (λ ms. All (λ m. module_nest m ≤ 200) ms.items) }
    ensures refused { IfErr result (IsUnread files.now) }
{
    check_texts(files)?;
    let given = give_files(alloc, files)?;
    parse_files(alloc, files, &given)
}

/// Files have one answer: one list of modules, which is what they mean, or one fault, and never both. So each fault comes
/// just where `read_modules` says.
pub fn one_answer()
    ensures meant { (files : List File) (ms : List Tree) → AreRead files ms → AreMeantBy files ms }
    ensures modules { (files : List File) (ms ns : List Tree) → AreMeantBy files ms → AreMeantBy files ns → ms ≡ ns }
    ensures either { (files : List File) (ms : List Tree) (e : Error) → AreRead files ms → IsUnread files e → e ≡ Memory }
    ensures faults { (files : List File) (x y : Error) → IsUnread files x → IsUnread files y → x ≢ Memory → y ≢ Memory → x ≡ y }
{}

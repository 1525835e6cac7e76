//! Laws on what the objects in memory tell, which nothing in a body can change.
ghost use Rattle.std.specs.Prelude.{◌≡◌, List, Some};
ghost use Rattle.mcy_base.specs.declared.file.SourceFile.{SourceFile as File};
ghost use Rattle.mcy_outside.specs.Files.{look_up};
ghost use Rattle.mcy_outside.specs.MemoryFiles.{ScriptedFiles};
ghost use Rattle.mcy_outside.specs.MemorySink.{ScriptedSink};

use crate::clean_files::CleanFiles;
use crate::files::SourceFiles;
use crate::memory_files::MemoryFiles;
use crate::memory_sink::MemorySink;
use crate::sink::Sink;

/// Files in memory tell what they hold.
pub fn memory_files_tell()
    ensures clean { (files : List File) → ⟦<CleanFiles as SourceFiles>⟧.held files ≡ Some (look_up files) }
    ensures faultless { (files : List File) → ⟦<CleanFiles as SourceFiles>⟧.faults files ≡ 0 }
    ensures scripted { (f : ScriptedFiles) → ⟦<MemoryFiles as SourceFiles>⟧.held f ≡ Some (look_up f.files) }
    ensures counted { (f : ScriptedFiles) → ⟦<MemoryFiles as SourceFiles>⟧.faults f ≡ f.faults }
{}

/// A sink in memory tells what was written.
pub fn memory_sinks_tell()
    ensures written { (s : ScriptedSink) → ⟦<MemorySink as Sink>⟧.written s ≡ Some s.seen }
    ensures counted { (s : ScriptedSink) → ⟦<MemorySink as Sink>⟧.faults s ≡ s.faults }
{}

//! The campaign of what the files hold.
//!
//! The project file is read first, and has to be a project with scripts. Then all files of its design and of its tests are
//! read, in their order and each once, and then they are judged.
ghost use Rattle.std.specs.Prelude.{◌≡◌, ◌≤◌, length, map, All, IfOk, IfErr};
ghost use Rattle.project_file.specs.Projects.{IsProject};
ghost use Rattle.campaign_choice.specs.Limits.{max_bytes};
ghost use Rattle.campaign_choice.specs.Projects.{HasScripts, IsScripted};
ghost use Rattle.campaign_reading.specs.Files.{config_name, Got, GotAll, IsMade};
ghost use Rattle.campaign_reading.specs.Reads.{IsUnmade, IsUnread, IsUnreadAmong, IsUntaken, HasReadCause, HasProject, GotSources};

use crate::preparing::prepare_scripted;
use crate::refusal::Refusal;
use campaign_choice::{Scripted, all_files, scripts_of};
use campaign_plan::Prepared;
use mcy_base::{Bytes, FileList, SourceFile, Text};
use mcy_outside::{FileError, SourceFiles};
use project_file::{Project, ProjectError, read_project};
use std::alloc::Global;
use tag_script::ScriptError;

/// The name of the project file.
const CONFIG_NAME: &str = "config.mcy";

/// How many bytes a file may have.
const MAX_BYTES: u32 = 1_048_576;

/// The bytes of the file of this name.
fn read_file<F: SourceFiles>(alloc: Global, files: &mut F, name: &str) -> Result<Vec<u8>, Refusal>
    ensures same { F.held files.new ≡ F.held files.old }
    ensures got { IfOk result (λ bytes. Got (F.held files.old) name.now bytes.items) }
    ensures few { IfOk result (λ bytes. length bytes.items ≤ max_bytes) }
    ensures refused { IfErr result (IsUnread (F.held files.old) name.now) }
    ensures later { F.faults files.old ≤ F.faults files.new }
    ensures cause { IfErr result (HasReadCause (F.faults files.old) (F.faults files.new)) }
{
    match files.read(name, MAX_BYTES) {
        Ok(bytes) => Ok(bytes),
        Err(FileError::Failed) => Err(Refusal::ReadFault(Text::copy(alloc, name)?)),
        Err(FileError::Missing) => Err(Refusal::Missing(Text::copy(alloc, name)?)),
        Err(FileError::TooLarge) => Err(Refusal::TooLarge(Text::copy(alloc, name)?)),
        Err(FileError::Memory) => Err(Refusal::Memory),
    }
}

/// The project with its scripts.
#[tactic(auto, using(crate::proofs::Takes::scripted_of))]
fn take_scripts(alloc: Global, config: &[u8], project: Project) -> Result<Scripted, Refusal>
    requires { IsProject config.now project }
    ensures says { IfOk result (λ taken. IsProject config.now taken.project) }
    ensures scripted { IfOk result (λ taken. IsScripted taken.project) }
    ensures scripts { IfOk result (λ taken. HasScripts taken.project taken.script taken.report) }
    ensures refused { IfErr result (IsUntaken config.now) }
{
    match scripts_of(alloc, &project) {
        Ok((script, report)) => Ok(Scripted {
            project,
            script,
            report,
        }),
        Err(ScriptError::Memory) => Err(Refusal::Memory),
        Err(error) => Err(Refusal::ScriptBad(error)),
    }
}

/// The project that the bytes say, with its scripts.
fn take_project(alloc: Global, config: &[u8]) -> Result<Scripted, Refusal>
    requires { length config.now ≤ max_bytes }
    ensures says { IfOk result (λ taken. IsProject config.now taken.project) }
    ensures scripted { IfOk result (λ taken. IsScripted taken.project) }
    ensures scripts { IfOk result (λ taken. HasScripts taken.project taken.script taken.report) }
    ensures refused { IfErr result (IsUntaken config.now) }
{
    match read_project(alloc, config) {
        Ok(project) => take_scripts(alloc, config, project),
        Err(ProjectError::Memory) => Err(Refusal::Memory),
        Err(error) => Err(Refusal::ProjectBad(error)),
    }
}

/// The project file's bytes, and the project that they say, with its scripts.
fn read_config<F: SourceFiles>(alloc: Global, files: &mut F) -> Result<(Vec<u8>, Scripted), Refusal>
    ensures same { F.held files.new ≡ F.held files.old }
    ensures got { IfOk result (λ read. Got (F.held files.old) config_name read.0.items) }
    ensures says { IfOk result (λ read. IsProject read.0.items read.1.project) }
    ensures scripted { IfOk result (λ read. IsScripted read.1.project) }
    ensures scripts { IfOk result (λ read. HasScripts read.1.project read.1.script read.1.report) }
    ensures refused { IfErr result (IsUnmade (F.held files.old)) }
    ensures later { F.faults files.old ≤ F.faults files.new }
    ensures cause { IfErr result (HasReadCause (F.faults files.old) (F.faults files.new)) }
{
    let config = read_file(alloc, files, CONFIG_NAME)?;
    let taken = take_project(alloc, &config)?;
    Ok((config, taken))
}

/// The file of this name.
fn read_source_file<F: SourceFiles>(
    alloc: Global,
    files: &mut F,
    name: &str,
) -> Result<SourceFile, Refusal>
    ensures same { F.held files.new ≡ F.held files.old }
    ensures name { IfOk result (λ file. file.name ≡ name.now) }
    ensures got { IfOk result (λ file. Got (F.held files.old) file.name file.bytes) }
    ensures few { IfOk result (λ file. length file.bytes ≤ max_bytes) }
    ensures refused { IfErr result (IsUnread (F.held files.old) name.now) }
    ensures later { F.faults files.old ≤ F.faults files.new }
    ensures cause { IfErr result (HasReadCause (F.faults files.old) (F.faults files.new)) }
{
    let bytes = read_file(alloc, files, name)?;
    Ok(SourceFile {
        name: Text::copy(alloc, name)?,
        bytes: Bytes::from_vec(bytes),
    })
}

/// The files of these names, in their order.
fn read_files<F: SourceFiles>(
    alloc: Global,
    files: &mut F,
    names: &[&str],
) -> Result<FileList, Refusal>
    ensures same { F.held files.new ≡ F.held files.old }
    ensures names { IfOk result (λ read. map (λ file. file.name) read ≡ map (λ name. name.now) names.now) }
    ensures got { IfOk result (GotAll (F.held files.old)) }
    ensures few { IfOk result (λ read. All (λ file. length file.bytes ≤ max_bytes) read) }
    ensures refused { IfErr result (IsUnreadAmong (F.held files.old) (map (λ name. name.now) names.now)) }
    ensures later { F.faults files.old ≤ F.faults files.new }
    ensures cause { IfErr result (HasReadCause (F.faults files.old) (F.faults files.new)) }
{
    let mut read = FileList::from_vec(Vec::new(alloc));
    for name in names {
        let file = read_source_file(alloc, files, name)?;
        read.push(file)?;
    }
    Ok(read)
}

/// All files of the project, once it is read.
fn read_sources<F: SourceFiles>(
    alloc: Global,
    files: &mut F,
    project: &Project,
) -> Result<FileList, Refusal>
    requires { HasProject (F.held files.old) project.now }
    ensures same { F.held files.new ≡ F.held files.old }
    ensures got { IfOk result (GotSources (F.held files.old) project.now) }
    ensures few { IfOk result (λ read. All (λ file. length file.bytes ≤ max_bytes) read) }
    ensures refused { IfErr result (IsUnmade (F.held files.old)) }
    ensures later { F.faults files.old ≤ F.faults files.new }
    ensures cause { IfErr result (HasReadCause (F.faults files.old) (F.faults files.new)) }
{
    let names = all_files(alloc, project)?;
    read_files(alloc, files, &names)
}

/// Reads the project and its sources, and makes the campaign.
pub fn read_campaign<F: SourceFiles>(alloc: Global, files: &mut F) -> Result<Prepared, Refusal>
    ensures same { F.held files.new ≡ F.held files.old }
    ensures made { IfOk result (IsMade (F.held files.old)) }
    ensures refused { IfErr result (IsUnmade (F.held files.old)) }
    ensures later { F.faults files.old ≤ F.faults files.new }
    ensures cause { IfErr result (HasReadCause (F.faults files.old) (F.faults files.new)) }
{
    let (config, taken) = read_config(alloc, files)?;
    let sources = read_sources(alloc, files, &taken.project)?;
    Ok(prepare_scripted(alloc, taken, sources.as_slice(), &config)?)
}

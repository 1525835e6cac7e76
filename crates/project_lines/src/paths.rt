//! Names of files: the paths of `[files]`, and the files that are read.
ghost use Rattle.std.specs.Prelude.{◌≡◌, ◌<◌, ◌+◌, ◌^◌, [], IfOk, OnOk, Some, length, map, option_map};
ghost use Rattle.project_lines.specs.Checks.{Checks, first_fault};
ghost use Rattle.project_lines.specs.Paths.{count_fault, files_at, files_fault, find_path, last_part, no_paths, path_of, paths_in, with_line, with_name, with_names, with_path};

use crate::error::ProjectError;
use crate::lines::{behind_key, from_word, is_said, key_of};
use crate::words::is_among;
use mcy_base::Text;
use std::alloc::{AllocError, Global};
use std::collections::BTreeMap;
use std::marker::Model;

/// The most files that a project reads.
const MAX_FILES: usize = 64;

/// What stands behind the last `/`.
#[tactic(auto, unfolding(crate::specs::Paths::last_part))]
fn last_part(path: &[u8]) -> &[u8]
    ensures { result.now ≡ last_part path.now }
{
    let mut start = path.len();
    while start > 0 && path[start - 1] != b'/' {
        start -= 1;
    }
    &path[start..]
}

/// The paths of lines of `[files]` by their last parts. Where two have one last part, it knows the first.
pub struct Paths<'a> {
    by_last_part: BTreeMap<&'a [u8], &'a str>,
}

impl Drop for Paths<'_> {
    fn drop(self) {
        let Paths {
            by_last_part: _by_last_part,
        } = self;
    }
}

impl<'a> Paths<'a> {
    fn new(alloc: Global) -> Paths<'a>
        ensures { paths_in result ≡ no_paths }
    {
        Paths {
            by_last_part: BTreeMap::new(alloc),
        }
    }

    fn find(&self, name: &'a [u8]) -> Option<&'a str>
        ensures { option_map (λ path. path.now) result ≡ paths_in self.now name.now }
    {
        self.by_last_part.get(&name).copied()
    }

    fn add(&mut self, name: &'a [u8], path: &'a str) -> Result<(), AllocError>
        ensures { OnOk result (paths_in self.new ≡ with_path (paths_in self.old) name.now (Some path.now)) }
    {
        self.by_last_part.insert(name, path)?;
        Ok(())
    }

    /// Adds a line of `[files]`.
    #[tactic(auto, unfolding(crate::specs::Paths::with_line))]
    fn add_line(&mut self, line: &'a str) -> Result<(), AllocError>
        ensures { OnOk result (paths_in self.new ≡ with_line (paths_in self.old) line.now) }
    {
        if !is_said(line) {
            return Ok(());
        }
        let path = key_of(line);
        let name = last_part(path.as_bytes());
        if self.find(name).is_none() {
            self.add(name, path)?;
        }
        Ok(())
    }

    /// The paths of these lines.
    pub fn of(alloc: Global, lines: &[&'a str]) -> Result<Paths<'a>, AllocError>
        ensures { IfOk result (λ paths. paths_in paths ≡ find_path (map (λ line. line.now) lines.now)) }
    {
        let mut paths = Paths::new(alloc);
        for line in lines {
            paths.add_line(line)?;
        }
        Ok(paths)
    }

    /// What is read for a name: the path that it stands for, or the name itself.
    #[tactic(auto, unfolding(crate::specs::Paths::path_of))]
    pub fn path_of(&self, name: &'a str) -> &'a str
        ensures { result.now ≡ path_of (paths_in self.now) name.now }
    {
        self.find(name.as_bytes()).unwrap_or(name)
    }

    /// What is read for each of these names.
    pub fn paths_of(&self, alloc: Global, names: &[&'a str]) -> Result<Vec<&'a str>, AllocError>
        ensures { IfOk result (λ paths. map (λ path. path.now) paths.items ≡ map (path_of (paths_in self.now)) (map (λ name. name.now) names.now)) }
    {
        let mut paths = Vec::new(alloc);
        for name in names {
            paths.push(self.path_of(name))?;
        }
        Ok(paths)
    }

    /// Checks a line of `[files]`, and adds it.
    #[tactic(auto, unfolding(crate::specs::Paths::files_at))]
    fn check_line(&mut self, number: u32, line: &'a str) -> Result<(), ProjectError>
        ensures fault { Checks result (files_at (paths_in self.old) number line.now) }
        ensures paths { OnOk result (paths_in self.new ≡ with_line (paths_in self.old) line.now) }
    {
        if is_said(line) {
            if !from_word(behind_key(line)).is_empty() {
                return Err(ProjectError::BadLine(number));
            }
            if self.find(last_part(key_of(line).as_bytes())).is_some() {
                return Err(ProjectError::Repeated(number));
            }
        }
        self.add_line(line)?;
        Ok(())
    }
}

/// Checks the lines of `[files]`, which are numbered from here on.
pub fn check_files(alloc: Global, number: u32, lines: &[&str]) -> Result<(), ProjectError>
    requires { number + length lines.now < 2 ^ 32 }
    ensures { Checks result (first_fault files_fault [] number (map (λ line. line.now) lines.now)) }
{
    let mut paths = Paths::new(alloc);
    for (i, line) in lines.iter().enumerate() {
        paths.check_line(number + i as u32, line)?;
    }
    Ok(())
}

/// The files that are read so far, each once.
#[derive(Drop)]
pub struct ReadFiles<'a> {
    names: Vec<&'a str>,
}

impl<'a> Model for ReadFiles<'a> {
    ghost use Rattle.std.specs.Prelude.{List, ℕ, map};

    ghost Value = { List (List ℕ) };

    ghost view = { λ r. map (λ name. name.now) r.names.items };
}

impl<'a> ReadFiles<'a> {
    /// No file is read.
    pub fn new(alloc: Global) -> ReadFiles<'a>
        ensures { result ≡ [] }
    {
        ReadFiles {
            names: Vec::new(alloc),
        }
    }

    /// One file more is read.
    #[tactic(auto, unfolding(crate::specs::Paths::with_name))]
    fn add(&mut self, name: &'a str) -> Result<(), AllocError>
        ensures { OnOk result (self.new ≡ with_name self.old name.now) }
    {
        if !is_among(name, &self.names) {
            self.names.push(name)?;
        }
        Ok(())
    }

    fn len(&self) -> usize
        ensures { result ≡ length self.now }
    {
        self.names.len()
    }

    /// The files of the line of this number are read too.
    pub fn add_all(&mut self, number: u32, names: &[&'a str]) -> Result<(), ProjectError>
        ensures fault { Checks result (count_fault self.old number (map (λ name. name.now) names.now)) }
        ensures read { OnOk result (self.new ≡ with_names self.old (map (λ name. name.now) names.now)) }
    {
        for name in names {
            self.add(name)?;
            if self.len() > MAX_FILES {
                return Err(ProjectError::OutOfRange(number));
            }
        }
        Ok(())
    }
}

/// These files, each once.
#[tactic(auto, using(crate::proofs::Reading::names_none, crate::proofs::Reading::names_push_one))]
pub fn names_once<'a>(alloc: Global, names: &'a [Text]) -> Result<Vec<&'a str>, AllocError>
    ensures { IfOk result (λ once. map (λ name. name.now) once.items ≡ with_names [] names.now) }
{
    let mut read = ReadFiles::new(alloc);
    for name in names {
        read.add(name.as_str())?;
    }
    Ok(read.names)
}

//! The section `[script]`: the commands of Yosys that are taken.
ghost use Rattle.std.specs.Prelude.{◌≡◌, ◌<◌, ◌+◌, ◌^◌, [], IfOk, OnOk, Some, length, map, option_map};
ghost use Rattle.std.specs.Option.{option_or};
ghost use Rattle.project_lines.specs.Checks.{Checks, first_fault};
ghost use Rattle.project_lines.specs.Paths.{gather, path_of, paths_in, with_names};
ghost use Rattle.project_lines.specs.Scripts.{command_fault, command_of, first_top, flattened_top, has_strange, hierarchy_top, is_option, is_strange, is_taken, prep_top, read_fault, reads_by, script_at, script_fault, script_reads, top_by, top_fault, top_if, top_named, top_of};

use crate::error::ProjectError;
use crate::lines::{args_of, is_said, key_of};
use crate::paths::{Paths, ReadFiles};
use crate::words::is_name;
use std::alloc::{AllocError, Global};

/// The commands that are taken.
#[derive(Clone, Copy)]
pub enum Command {
    Read,
    Prep,
    Hierarchy,
}

#[tactic(auto, unfolding(crate::specs::Scripts::command_of))]
fn command_of(word: &str) -> Option<Command>
    ensures { result ≡ command_of word.now }
{
    match word {
        "read_verilog" => Some(Command::Read),
        "prep" => Some(Command::Prep),
        "hierarchy" => Some(Command::Hierarchy),
        _ => None,
    }
}

/// Whether the word is an option.
fn is_option(word: &str) -> bool
    ensures { result ≡ is_option word.now }
{
    match word.as_bytes() {
        [first, ..] => *first == b'-',
        [] => false,
    }
}

/// Whether the command takes the option.
fn is_taken(command: Command, word: &str) -> bool
    ensures { result ≡ is_taken command word.now }
{
    match command {
        Command::Read => false,
        Command::Prep => matches!(word, "-top" | "-flatten"),
        Command::Hierarchy => word == "-top",
    }
}

/// Whether the word is an option that the command does not take.
fn is_strange(command: Command, word: &str) -> bool
    ensures { result ≡ is_strange command word.now }
{
    is_option(word) && !is_taken(command, word)
}

#[tactic(auto, unfolding(crate::specs::Scripts::has_strange))]
fn has_strange(command: Command, args: &[&str]) -> bool
    ensures { result ≡ has_strange command (map (λ word. word.now) args.now) }
{
    for word in args {
        if is_strange(command, word) {
            return true;
        }
    }
    false
}

/// The name in `-top NAME`.
fn top_if<'a>(option: &str, name: &'a str) -> Option<&'a str>
    ensures { option_map (λ top. top.now) result ≡ top_if option.now name.now }
{
    if option == "-top" && is_name(name) {
        Some(name)
    } else {
        None
    }
}

/// The same of three words, with a `-flatten` in front of it or behind it.
fn flattened_top<'a>(first: &str, second: &'a str, third: &'a str) -> Option<&'a str>
    ensures { option_map (λ top. top.now) result ≡ flattened_top first.now second.now third.now }
{
    if first == "-flatten" {
        return top_if(second, third);
    }
    if third == "-flatten" {
        return top_if(first, second);
    }
    None
}

fn hierarchy_top<'a>(args: &[&'a str]) -> Option<&'a str>
    ensures { option_map (λ top. top.now) result ≡ hierarchy_top (map (λ word. word.now) args.now) }
{
    match args {
        [option, name] => top_if(option, name),
        _ => None,
    }
}

fn prep_top<'a>(args: &[&'a str]) -> Option<&'a str>
    ensures { option_map (λ top. top.now) result ≡ prep_top (map (λ word. word.now) args.now) }
{
    match args {
        [first, second, third] => flattened_top(first, second, third),
        _ => hierarchy_top(args),
    }
}

/// The top that a command names.
#[tactic(auto, unfolding(crate::specs::Scripts::top_named))]
fn top_named<'a>(command: Command, args: &[&'a str]) -> Option<&'a str>
    ensures { option_map (λ top. top.now) result ≡ top_named command (map (λ word. word.now) args.now) }
{
    match command {
        Command::Read => None,
        Command::Prep => prep_top(args),
        Command::Hierarchy => hierarchy_top(args),
    }
}

/// The top that a line names.
#[tactic(auto, unfolding(crate::specs::Scripts::top_of))]
fn top_of<'a>(alloc: Global, line: &'a str) -> Result<Option<&'a str>, AllocError>
    ensures { IfOk result (λ top. option_map (λ name. name.now) top ≡ top_of line.now) }
{
    if !is_said(line) {
        return Ok(None);
    }
    let args = args_of(alloc, line)?;
    match command_of(key_of(line)) {
        Some(command) => Ok(top_named(command, &args)),
        None => Ok(None),
    }
}

/// The first top that the lines name.
#[tactic(auto, unfolding(crate::specs::Scripts::first_top))]
pub fn first_top<'a>(alloc: Global, lines: &[&'a str]) -> Result<Option<&'a str>, AllocError>
    ensures { IfOk result (λ top. option_map (λ name. name.now) top ≡ first_top (map (λ line. line.now) lines.now)) }
{
    for line in lines {
        if let Some(top) = top_of(alloc, line)? {
            return Ok(Some(top));
        }
    }
    Ok(None)
}

/// The files that a line reads.
#[tactic(auto, unfolding(crate::specs::Scripts::script_reads))]
fn reads_of<'a>(alloc: Global, paths: &Paths<'a>, line: &'a str) -> Result<Vec<&'a str>, AllocError>
    ensures { IfOk result (λ files. map (λ file. file.now) files.items ≡ script_reads (paths_in paths.now) line.now) }
{
    if !is_said(line) {
        return Ok(Vec::new(alloc));
    }
    let args = args_of(alloc, line)?;
    match command_of(key_of(line)) {
        Some(Command::Read) => paths.paths_of(alloc, &args),
        _ => Ok(Vec::new(alloc)),
    }
}

/// The files that the lines read, in order.
#[tactic(auto, unfolding(crate::specs::Paths::gather))]
pub fn all_reads<'a>(
    alloc: Global,
    paths: &Paths<'a>,
    lines: &[&'a str],
) -> Result<Vec<&'a str>, AllocError>
    ensures { IfOk result (λ files. map (λ file. file.now) files.items ≡ gather (script_reads (paths_in paths.now)) (map (λ line. line.now) lines.now)) }
{
    let mut files = Vec::new(alloc);
    for line in lines {
        files.extend_from_slice(&reads_of(alloc, paths, line)?)?;
    }
    Ok(files)
}

/// Checks the files of a line, and reads them.
#[tactic(auto, unfolding(crate::specs::Scripts::read_fault))]
fn check_read<'a>(
    read: &mut ReadFiles<'a>,
    number: u32,
    files: &[&'a str],
) -> Result<(), ProjectError>
    ensures fault { Checks result (read_fault read.old number (map (λ file. file.now) files.now)) }
    ensures read { OnOk result (read.new ≡ with_names read.old (map (λ file. file.now) files.now)) }
{
    if files.is_empty() {
        return Err(ProjectError::BadLine(number));
    }
    read.add_all(number, files)
}

/// Checks the top that a line names against the one that is named before.
#[tactic(auto, unfolding(crate::specs::Scripts::top_fault))]
fn check_top(top: Option<&str>, number: u32, named: Option<&str>) -> Result<(), ProjectError>
    ensures { Checks result (top_fault (option_map (λ name. name.now) top.entry) number (option_map (λ name. name.now) named.entry)) }
{
    let Some(name) = named else {
        return Err(ProjectError::BadLine(number));
    };
    match top {
        Some(first) if first != name => Err(ProjectError::Repeated(number)),
        _ => Ok(()),
    }
}

/// Checks a command with its words, and reads its files.
#[tactic(auto, unfolding(crate::specs::Paths::with_names))]
fn check_command<'a>(
    alloc: Global,
    paths: &Paths<'a>,
    read: &mut ReadFiles<'a>,
    top: Option<&'a str>,
    number: u32,
    command: Command,
    args: &[&'a str],
) -> Result<(), ProjectError>
    ensures fault { Checks result (command_fault (paths_in paths.now) read.old (option_map (λ name. name.now) top.entry) number command (map (λ word. word.now) args.now)) }
    ensures read { OnOk result (read.new ≡ with_names read.old (map (path_of (paths_in paths.now)) (reads_by (Some command) (map (λ word. word.now) args.now)))) }
{
    match command {
        Command::Read => {
            let files = paths.paths_of(alloc, args)?;
            check_read(read, number, &files)
        }
        Command::Prep | Command::Hierarchy => check_top(top, number, top_named(command, args)),
    }
}

/// Checks a line behind what the lines before it say, and reads its files.
#[tactic(auto, unfolding(crate::specs::Scripts::script_at, crate::specs::Scripts::script_reads, crate::specs::Paths::with_names))]
fn check_line<'a>(
    alloc: Global,
    paths: &Paths<'a>,
    read: &mut ReadFiles<'a>,
    top: Option<&'a str>,
    number: u32,
    line: &'a str,
) -> Result<(), ProjectError>
    ensures fault { Checks result (script_at (paths_in paths.now) read.old (option_map (λ name. name.now) top.entry) number line.now) }
    ensures read { OnOk result (read.new ≡ with_names read.old (script_reads (paths_in paths.now) line.now)) }
{
    if !is_said(line) {
        return Ok(());
    }
    let Some(command) = command_of(key_of(line)) else {
        return Err(ProjectError::UnsupportedCommand(number));
    };
    let args = args_of(alloc, line)?;
    if has_strange(command, &args) {
        return Err(ProjectError::UnsupportedCommand(number));
    }
    check_command(alloc, paths, read, top, number, command, &args)
}

/// The first of two tops.
fn first_of<'a>(first: Option<&'a str>, second: Option<&'a str>) -> Option<&'a str>
    ensures { option_map (λ name. name.now) result ≡ option_or (option_map (λ name. name.now) first.entry) (option_map (λ name. name.now) second.entry) }
{
    match first {
        Some(name) => Some(name),
        None => second,
    }
}

/// Checks the lines of the section, which are numbered from here on, and reads their files.
#[tactic(auto, unfolding(crate::specs::Paths::with_names, crate::specs::Paths::gather, crate::specs::Scripts::first_top))]
pub fn check_script<'a>(
    alloc: Global,
    paths: &Paths<'a>,
    read: &mut ReadFiles<'a>,
    number: u32,
    lines: &[&'a str],
) -> Result<(), ProjectError>
    requires { number + length lines.now < 2 ^ 32 }
    ensures fault { Checks result (first_fault (script_fault (paths_in paths.now) read.old) [] number (map (λ line. line.now) lines.now)) }
    ensures read { OnOk result (read.new ≡ with_names read.old (gather (script_reads (paths_in paths.now)) (map (λ line. line.now) lines.now))) }
{
    let mut top = None;
    for (i, line) in lines.iter().enumerate() {
        check_line(alloc, paths, read, top, number + i as u32, line)?;
        top = first_of(top, top_of(alloc, line)?);
    }
    Ok(())
}

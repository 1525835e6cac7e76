//! The command line as `clap` knows it: a subcommand for each command, the options of `run`, the flag of `status`, and the two words
//! behind `demo`. `clap`'s own help is switched off, so that `help`, `-h` and `--help` are words that it does not know.
ghost use Rattle.std.specs.Prelude.{◌≡◌, IfOk, false};
ghost use Rattle.clap.specs.Words.{app_of};
ghost use Rattle.clap.specs.declared.builder.command.Command.TheViews.{out-Command as fields_of};
ghost use Rattle.command_words.specs.Program.{command_line, demo_line, first_line, run_line, status_line};

use clap::{Arg, ArgAction};
use std::alloc::{AllocError, Global};

/// The whole command line. No word before the command is the program's name, and none asks for help.
pub(crate) fn command_line<'a>(alloc: Global) -> Result<clap::Command<'a>, AllocError>
    ensures { IfOk result (λ line. app_of line ≡ command_line) }
{
    let demo = demo_line(alloc)?;
    let first = first_line(alloc)?;
    first
        .subcommand(clap::Command::new(alloc, "source"))?
        .subcommand(clap::Command::new(alloc, "baseline"))?
        .subcommand(demo)
}

/// Its settings, and the first of its commands.
fn first_line<'a>(alloc: Global) -> Result<clap::Command<'a>, AllocError>
    ensures { IfOk result (λ line. app_of line ≡ first_line) }
{
    let run = run_line(alloc)?;
    let status = status_line(alloc)?;
    clap::Command::new(alloc, "mcy")
        .no_binary_name(true)
        .disable_help_flag(true)
        .disable_help_subcommand(true)
        .subcommand(clap::Command::new(alloc, "init"))?
        .subcommand(run)?
        .subcommand(clap::Command::new(alloc, "list"))?
        .subcommand(status)
}

/// `run` with its options.
fn run_line<'a>(alloc: Global) -> Result<clap::Command<'a>, AllocError>
    ensures shape { IfOk result (λ line. app_of line ≡ run_line) }
    ensures local { IfOk result (λ line. (fields_of line).has_globals ≡ false) }
{
    let jobs = Arg::new(alloc, "jobs").short('j').action(ArgAction::Set);
    let stop_after = Arg::new(alloc, "stop-after")
        .long("stop-after")
        .action(ArgAction::Set);
    let retry = Arg::new(alloc, "retry")
        .long("retry")
        .action(ArgAction::Set);
    let mutations = Arg::new(alloc, "mutations")
        .long("mutations")
        .action(ArgAction::Set);
    clap::Command::new(alloc, "run")
        .arg(jobs)?
        .arg(stop_after)?
        .arg(retry)?
        .arg(mutations)
}

/// `status` with its flag.
fn status_line<'a>(alloc: Global) -> Result<clap::Command<'a>, AllocError>
    ensures shape { IfOk result (λ line. app_of line ≡ status_line) }
    ensures local { IfOk result (λ line. (fields_of line).has_globals ≡ false) }
{
    let strict = Arg::new(alloc, "strict")
        .long("strict")
        .action(ArgAction::SetTrue);
    clap::Command::new(alloc, "status").arg(strict)
}

/// `demo` with its two words.
fn demo_line<'a>(alloc: Global) -> Result<clap::Command<'a>, AllocError>
    ensures shape { IfOk result (λ line. app_of line ≡ demo_line) }
    ensures local { IfOk result (λ line. (fields_of line).has_globals ≡ false) }
{
    let seed = Arg::new(alloc, "seed").action(ArgAction::Set);
    let cells = Arg::new(alloc, "cells").action(ArgAction::Set);
    clap::Command::new(alloc, "demo").arg(seed)?.arg(cells)
}

//! The words after the program's name.
use crate::meter::Asked;
use command_words::{Command, MutationNumbers, read_words};
use std::alloc::{AllocError, Global};
use std::env::{self, Env};
use std::io;

/// The words after the program's name. An error is want of memory, or a word that is no text.
pub fn words_of<R: Env + Alloc<A = Global>>(rt: &R) -> io::Result<Vec<String>> {
    let mut words = Vec::new(rt.alloc());
    for word in env::args(rt)?.skip(1) {
        words.push(word).map_err(AllocError::from)?;
    }
    Ok(words)
}

/// What a call of this command tells, when it stops and what it asks again.
fn asked_by(command: Command, mutations: MutationNumbers) -> Asked {
    let (is_of_status, stop_after, retry) = match command {
        Command::Run {
            stop_after,
            retry,
            ..
        } => (true, stop_after, retry.unwrap_or(0)),
        Command::Status { .. } => (true, None, 0),
        _ => (false, None, 0),
    };
    Asked {
        is_of_status,
        stop_after,
        retry,
        mutations,
    }
}

/// What a call with these words tells, when it stops and what it asks again; nothing where they give no command.
pub fn asked_of(alloc: Global, words: &[String]) -> Asked {
    match read_words(alloc, words) {
        Ok(Some(said)) => asked_by(said.command, said.mutations),
        _ => Asked {
            is_of_status: false,
            stop_after: None,
            retry: 0,
            mutations: MutationNumbers::from_vec(Vec::new(alloc)),
        },
    }
}

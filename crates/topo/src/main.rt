//! The program: runs a script of edits on the topology that a journal keeps, or shows what it keeps.
//!
//! It stands on all crates below. `solo` is the top call, with the main theorem as its clause; `main` hands it the words
//! of the command line, standard input and standard output, and the file that is named as the journal.
#![tactic(auto)]

mod apply;
mod check;
mod copies;
mod end;
mod run;
mod served;
mod show;
mod solo;
mod status;
#[cfg(test)]
mod tests;
mod words;

use real_edge::{FileDisk, StdSink, StdSource};
use status::Status;
use std::alloc::Alloc;
use std::env::Env;
use std::process::ExitCode;
use std::{env, io};
use topo_disk::MemDisk;

/// The words of the command line behind the program's name.
fn words_of<R: Env + Alloc>(rt: &R) -> io::Result<Vec<String<R::A>, R::A>> {
    let mut words = Vec::new(rt.alloc());
    let mut is_name = true;
    for word in env::args(rt)? {
        if is_name {
            is_name = false;
        } else {
            words.push(word)?;
        }
    }
    Ok(words)
}

/// The call over standard input and output, and over the file that the words name as the journal, or a disk in memory
/// where they name none.
fn call(rt: &HostRuntime, words: &[String]) -> Status {
    let mut source = StdSource::of(rt.reader());
    let mut sink = StdSink::of(io::writer(rt));
    match words::journal_word(words) {
        None => {
            let disk = MemDisk::plain(rt.alloc(), Vec::new(rt.alloc()));
            solo::solo(rt.alloc(), words, &mut source, &mut sink, disk).status
        }
        Some(path) => match FileDisk::open(rt, path.as_str()) {
            Ok(disk) => solo::solo(rt.alloc(), words, &mut source, &mut sink, disk).status,
            Err(_) => end::end_with(&mut sink, b"fault disk\n", 7),
        },
    }
}

fn main(rt: HostRuntime) -> ExitCode {
    let words = match words_of(&rt) {
        Ok(words) => words,
        Err(end) if end.kind() == io::ErrorKind::OutOfMemory => return ExitCode::from(8),
        // A word that isn't text is no form of the program, and neither is no word.
        Err(_) => Vec::new(rt.alloc()),
    };
    ExitCode::from(call(&rt, &words).number())
}

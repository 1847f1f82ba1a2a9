//! Draws the tables that `topo tables` prints, as SVG.
//!
//! It stands on `topo_base` for the rows, on `topo_io` for bytes and decimals, and on `real_edge` for standard input and
//! output. It promises that a drawing is written whole or that the sink failed, and that nothing is written where
//! there is no drawing. What is drawn is tested and not proved. What tables mean is left to `topo`.
#![tactic(auto)]

mod areas;
mod colours;
mod draw;
mod end;
mod flaw;
mod frame;
mod inside;
mod labels;
mod line;
mod marks;
mod middle;
mod picture;
mod points;
mod read;
mod rings;
mod room;
mod rows;
mod run;
mod svg;
mod tables;
#[cfg(test)]
mod tests;
mod ways;

use end::DrawEnd;
use real_edge::{StdSink, StdSource};
use std::alloc::Alloc;
use std::env::Env;
use std::process::ExitCode;
use std::{env, io};

/// The words of the command line behind the program's name.
fn words_of<R: Env + Alloc>(rt: &R) -> io::Result<Vec<String<R::A>, R::A>> {
    let mut words = Vec::new(rt.alloc());
    let mut is_name = true;
    for word in env::args(rt)? {
        if is_name {
            is_name = false;
        } else {
            words.push(word)?;
        }
    }
    Ok(words)
}

/// The call over standard input and output.
fn call(rt: &HostRuntime) -> Result<(), DrawEnd> {
    let words = match words_of(rt) {
        Ok(words) => words,
        Err(end) if end.kind() == io::ErrorKind::OutOfMemory => return Err(DrawEnd::Memory),
        Err(_) => return Err(DrawEnd::Words),
    };
    let mut source = StdSource::of(rt.reader());
    let mut sink = StdSink::of(io::writer(rt));
    run::run(rt.alloc(), &words, &mut source, &mut sink)
}

fn main(rt: HostRuntime) -> ExitCode {
    match call(&rt) {
        Ok(()) => ExitCode::from(0),
        Err(end) => {
            let status = end.status();
            let _ = eprintln!(&rt; "topo_draw: {end}");
            ExitCode::from(status)
        }
    }
}

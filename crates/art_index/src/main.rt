//! The program `art_index`: an ordered index in memory, answering lines of commands.
//!
//! `execute` of `art_tools` reads the words of the command line and does what they ask for; `main` hands in the standard
//! streams, the output with room before it for the replies to the lines of one read, and ends with the status that it answers.
#![tactic(auto)]

#[cfg(test)]
mod answers;
#[cfg(test)]
mod rows;
#[cfg(test)]
mod step_rows;
#[cfg(test)]
mod tests;
#[cfg(test)]
mod thread_rows;

use art_server::Counted;
use art_tools::execute;
use std::alloc::Global;
use std::io::{BufWriter, ErrorKind};
use std::process::ExitCode;
use std::rt::Env;
use std::{env, io};

/// Room for the replies to the lines of one read: each of its 4,096 bytes has at most 24 of a reply, scans apart, as a line feed alone
/// has that of a bad line.
const OUTPUT_BYTES: usize = 100_000;

fn main(rt: HostRuntime) -> io::Result<ExitCode> {
    let alloc = rt.alloc();
    let owned = match words_of(&rt, alloc) {
        Ok(owned) => owned,
        Err(error) if error.kind() == ErrorKind::OutOfMemory => {
            eprintln!(rt; "art_index: no memory")?;
            return Ok(ExitCode::from(4));
        }
        Err(error) => {
            eprintln!(rt; "art_index: {error}")?;
            return Ok(ExitCode::from(2));
        }
    };
    let words: Vec<&str> = owned.iter().map(|word| word.as_str()).collect(alloc)?;
    let Ok(mut output) = BufWriter::with_capacity(alloc, OUTPUT_BYTES, rt.stdout()) else {
        eprintln!(rt; "art_index: no memory")?;
        return Ok(ExitCode::from(4));
    };
    let status = execute(
        &rt,
        alloc,
        words.as_slice(),
        &mut Counted::new(rt.stdin()),
        &mut output,
        &mut rt.stderr(),
    );
    Ok(ExitCode::from(status))
}

fn words_of(rt: &(impl Env + AllocGlobal), alloc: Global) -> io::Result<Vec<String>> {
    Ok(env::args(rt)?.collect(alloc)?)
}

//! The program `lsmtrie`: the top call over a file, standard input and standard output.
#![tactic(auto)]

use lt_cli::{Status, Task, lsm_trie, task_of};
use lt_file::{FileDevice, StdSink, StdSource};
use std::fs::{File, OpenOptions};
use std::io::ErrorKind;
use std::process::ExitCode;
use std::rt::Env;
use std::{env, io};

#[cfg(test)]
mod tests;

const HELP: &str = "\
lsmtrie FILE init E L S   makes a store of E extents, L levels and S slots
lsmtrie FILE run          answers the lines of standard input
lsmtrie --help            prints this
lsmtrie --version         prints the version

Lines: put KEY VALUE, delete KEY, get KEY, stat.
Replies: OK, VALUE v, NONE, FULL needed free, LIMIT, STAT writes reads tables free,
BAD long, BAD syntax, BAD key, BAD value, BAD end.
";

const VERSION: &str = "lsmtrie 0.2.0\n";

/// The exit status where the file cannot be opened.
const UNOPENED: u8 = 9;

fn main(rt: HostRuntime) -> ExitCode {
    let code = match words(&rt) {
        Ok(words) => run(&rt, &words),
        Err(error) => faulty_words(&error).code(),
    };
    ExitCode::from(code)
}

/// The words behind the program's name.
fn words(rt: &(impl Env + AllocGlobal)) -> io::Result<Vec<String>> {
    Ok(env::args(rt)?.skip(1).collect(rt.alloc())?)
}

/// A word that is no text is a faulty command line.
fn faulty_words(error: &io::Error) -> Status {
    match error.kind() {
        ErrorKind::OutOfMemory => Status::NoMemory,
        _ => Status::Words,
    }
}

/// Does what the words ask for. Answers the exit status.
fn run(rt: &HostRuntime, words: &[String]) -> u8 {
    match words {
        [] => Status::Words.code(),
        [word] if word.as_str() == "--help" => say(rt, HELP).code(),
        [word] if word.as_str() == "--version" => say(rt, VERSION).code(),
        [path, words @ ..] => run_on(rt, path.as_str(), words),
    }
}

/// Prints a text; a fault is that of standard output.
fn say(rt: &impl Print, text: &str) -> Status {
    match rt.print(text) {
        Ok(()) => Status::Done,
        Err(_) => Status::SinkFault,
    }
}

/// The top call over a file. Faulty words are refused before the file is opened.
fn run_on(rt: &HostRuntime, path: &str, words: &[String]) -> u8 {
    let Some(task) = task_of(words) else {
        return Status::Words.code();
    };
    let Ok(file) = open(rt, path, &task) else {
        return UNOPENED;
    };
    let mut device = FileDevice::new(file);
    let mut source = StdSource::new(rt.reader());
    let mut sink = StdSink::new(io::writer(rt));
    lsm_trie(rt.alloc(), words, &mut source, &mut sink, &mut device).code()
}

/// Opens the file of a store for reading and writing. It is made only where a store is to be made.
fn open(rt: &HostRuntime, path: &str, task: &Task) -> io::Result<File> {
    OpenOptions::new()
        .read(true)
        .write(true)
        .create(matches!(task, Task::Init { .. }))
        .open(rt, path)
}

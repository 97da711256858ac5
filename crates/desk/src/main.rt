//! `desk`: runs the call that its words name on the files and streams of the process, and ends with its status.
#![tactic(auto)]

ghost use Rattle.std.specs.Prelude.{None};

mod folder;
mod noted;

use crate::folder::{Documents, all_of, open_both, open_folder};
use crate::noted::{Closed, Noted, note};
use advice::{Advice, LastError, tell_unwritten};
use command_line::{Input, Named, read_words};
use desk_cli::{CommandRefusal, Status, refuse, refuse_words};
use dispatch::{NotOpened, Opens, run_call};
use either::{Either, Left, Right};
use std::cell::Cell;
use std::fs::File;
use std::io::{self, ErrorKind, Stderr, Stdin, Stdout};
use std::os::fd::AsRawFd;
use std::process::ExitCode;
use std::sync::Wait;
use std::thread::Threads;
use std::{env, fs};
use streams::Watched;

/// An input, opened: a file, standard input, documents in one text, or a standard input that is closed.
type Source = Either<File, Either<Stdin, Either<Documents, Closed>>>;

fn main(rt: HostRuntime) -> ExitCode {
    ExitCode::from(run(&rt, &rt).code())
}

// Runs the call, and tells why its output could not be written.
fn run<T: Threads + Wait + Sync>(rt: &HostRuntime, threads: &T) -> Status {
    let written = Cell::new(None);
    let mut output = Watched::new(Noted::new(rt.stdout(), &written));
    let mut errors = Watched::new(rt.stderr());
    let status = run_words(rt, threads, &mut output, &mut errors);
    tell_unwritten(rt.alloc(), &written, &mut errors);
    status
}

// Reads the words and runs the call that they name, on these threads.
fn run_words<T: Threads + Wait + Sync>(
    rt: &HostRuntime,
    threads: &T,
    output: &mut Watched<Noted<'_, Stdout>>,
    errors: &mut Watched<Stderr>,
) -> Status {
    let words = match words_of(rt) {
        Ok(words) => words,
        Err(error) => return refuse_system(&error, output, errors),
    };
    let mut texts = Vec::new(rt.alloc());
    for word in &words {
        if texts.push(word.as_str()).is_err() {
            return refuse(CommandRefusal::OutOfMemory, output);
        }
    }
    // Takes the number of a standard stream that is closed, so that no input gets it: a folder is neither read nor
    // written.
    let folder = fs::open(rt, "/");
    let last = Cell::new(None);
    let process = Process {
        rt,
        is_guarded: folder.is_ok(),
        is_closed: is_standard_input(&folder),
        last: &last,
    };
    match read_words(rt.alloc(), &texts) {
        Ok(call) => {
            let mut people = Advice::new(rt.alloc(), call, &last, Watched::new(rt.stderr()));
            let end = run_call(
                threads,
                rt.alloc(),
                call,
                &process,
                output,
                errors,
                &mut people,
            );
            people.ended(end.status);
            end.status
        }
        Err(fault) => refuse_words(&fault, output, errors),
    }
}

// The words of the command line after the program's name.
fn words_of(rt: &HostRuntime) -> io::Result<Vec<String>> {
    let mut words = Vec::new(rt.alloc());
    for word in env::args(rt)?.skip(1) {
        words.push(word)?;
    }
    Ok(words)
}

// The words could not be had: memory ran out, or one is not UTF-8.
fn refuse_system(
    error: &io::Error,
    output: &mut Watched<Noted<'_, Stdout>>,
    errors: &mut Watched<Stderr>,
) -> Status {
    if error.kind() == ErrorKind::OutOfMemory {
        return refuse(CommandRefusal::OutOfMemory, output);
    }
    match errors.write(b"error: a word is not UTF-8\n") {
        Ok(()) => Status::BadArguments,
        Err(_) => Status::InputOrOutputFailed,
    }
}

// Whether a file got the number of standard input, which was closed then.
fn is_standard_input(file: &io::Result<File>) -> bool {
    match file {
        Ok(file) => file.as_raw_fd() == 0,
        Err(_) => false,
    }
}

// The file at a path, or the documents of the folder there.
fn open_path(rt: &HostRuntime, path: &str) -> io::Result<Source> {
    if fs::metadata(rt, path)?.is_dir() {
        let documents = open_folder(rt, path)?;
        return Ok(Right(Right(Left(documents))));
    }
    let file = fs::open(rt, path)?;
    Ok(Left(file))
}

// The files and the standard input of a process, and the error of the last call on them. No file is opened unless it is
// guarded: one that got the number of a closed standard stream would be read as that stream.
#[derive(Clone, Copy)]
struct Process<'a> {
    rt: &'a HostRuntime,
    is_guarded: bool,
    is_closed: bool,
    last: &'a LastError,
}

impl<'a> Process<'a> {
    // What a word names, opened.
    fn open_named(&self, named: Named<'_>) -> Result<Source, NotOpened> {
        let source = match named {
            Named::Standard if self.is_closed => Ok(Right(Right(Right(Closed)))),
            Named::Standard => Ok(Right(Left(self.rt.stdin()))),
            Named::File(_) if !self.is_guarded => return Err(NotOpened { is_new: false }),
            Named::File(path) => note(self.last, open_path(self.rt, path)),
        };
        match source {
            Ok(source) => Ok(source),
            Err(_) => Err(NotOpened { is_new: false }),
        }
    }

    // All that it has.
    fn read_named(&self, named: Named<'_>) -> Result<Vec<u8>, NotOpened> {
        let source = self.open_named(named)?;
        match note(self.last, all_of(self.rt, source)) {
            Ok(bytes) => Ok(bytes),
            Err(_) => Err(NotOpened { is_new: false }),
        }
    }

    // A release list and a task set in one text.
    fn open_both(&self, list: Named<'_>, new: Named<'_>) -> Result<Source, NotOpened> {
        let list = self.read_named(list)?;
        let Ok(new) = self.read_named(new) else {
            return Err(NotOpened { is_new: true });
        };
        match note(self.last, open_both(list, &new)) {
            Ok(documents) => Ok(Right(Right(Left(documents)))),
            Err(_) => Err(NotOpened { is_new: false }),
        }
    }
}

impl<'a> Opens for Process<'a> {
    type Source = Noted<'a, Source>;

    // No contract can say what a file has.
    ghost bytes = { λ _ _. None };

    // Nor which it does not open.
    ghost may_refuse = { λ _ _. Unit {0} };

    fn open(&self, input: Input<'_>) -> Result<Noted<'a, Source>, NotOpened> {
        let source = match input {
            Input::One(named) => self.open_named(named)?,
            Input::Both { list, new } => self.open_both(list, new)?,
        };
        Ok(Noted::new(source, self.last))
    }
}

//! The program over the command line, the standard streams and the file system of the host.

use crate::serving::serve;
use command_line::{Request, WordFault, read_words};
use query_service::{Status, refuse_words};
use std::fs::File;
use std::io::ErrorKind;
use std::{env, io};
use streams::{FolderSource, StreamInput, StreamOutput, write_all};

/// Runs the program: does what the words of the command line ask for, over the standard streams and
/// the folders of the host, and returns how it ended. If a standard stream is closed, the program
/// fails at its first read from it or write to it.
pub fn start(rt: &HostRuntime) -> Status {
    match Closed::filled(rt) {
        Ok(closed) => {
            let status = outcome(rt);
            drop(closed);
            status
        }
        Err(_) => {
            let _ = write_all(b"REFUSED device\n", &mut StreamOutput::new(rt.stderr()));
            Status::DeviceFault
        }
    }
}

// Three open descriptors of a folder, which can be neither read nor written as files. If standard
// streams are closed, these descriptors take their numbers, because the host gives out the lowest
// free numbers. Otherwise the first files of a release would take these numbers, and be read as
// queries.
#[derive(Drop)]
struct Closed {
    _first: File,
    _second: File,
    _third: File,
}

impl Closed {
    // Opens the three descriptors.
    fn filled(rt: &HostRuntime) -> io::Result<Closed> {
        Ok(Closed {
            _first: File::open(rt, "/")?,
            _second: File::open(rt, "/")?,
            _third: File::open(rt, "/")?,
        })
    }
}

// Reads the words of the command line, and does what they ask for.
fn outcome(rt: &HostRuntime) -> Status {
    match asked(rt) {
        Ok(request) => fulfil(rt, &request),
        Err(fault) => refuse_words(
            &fault,
            &mut StreamOutput::new(io::writer(rt)),
            &mut StreamOutput::new(rt.stderr()),
        ),
    }
}

// Reads the words of the command line as a request.
fn asked(rt: &HostRuntime) -> Result<Request, WordFault> {
    let given = match env::args(rt) {
        Ok(given) => given,
        Err(error) => return Err(unread_words(rt, &error)),
    };
    let words: Vec<String> = given.collect(rt.alloc())?;
    let texts: Vec<&str> = words.iter().map(|word| word.as_str()).collect(rt.alloc())?;
    read_words(rt.alloc(), texts.as_slice())
}

// Returns why the words can't be read: memory was refused, or a word is not UTF-8.
fn unread_words(rt: &HostRuntime, error: &io::Error) -> WordFault {
    if error.kind() == ErrorKind::OutOfMemory {
        return WordFault::Memory;
    }
    match String::from_str(rt.alloc(), "error: a word is not UTF-8\n") {
        Ok(text) => WordFault::Usage(text),
        Err(_) => WordFault::Memory,
    }
}

// Serves `request` over the folders that it names.
fn fulfil(rt: &HostRuntime, request: &Request) -> Status {
    let mut source = FolderSource::new(rt, request.folders.as_slice());
    fulfil_from(rt, request, &mut source)
}

// Serves `request` over the release in `source`, with the standard streams.
fn fulfil_from(rt: &HostRuntime, request: &Request, source: &mut FolderSource<'_>) -> Status {
    serve(
        rt.alloc(),
        request,
        source,
        &mut StreamInput::new(rt.reader()),
        &mut StreamOutput::new(io::writer(rt)),
        &mut StreamOutput::new(rt.stderr()),
    )
}

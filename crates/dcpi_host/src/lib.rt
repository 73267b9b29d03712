//! The words, the standard streams and the folder of a process, given to the top call. The programs are one line above it.
#![tactic(auto)]

use dcpi_run_top::dcpi;
use outside_io::{OpenGate, StdSink, StdSource, put_all};
use std::alloc::AllocError;
use std::sync::Wait;
use std::thread::Threads;
use std::{env, io};
use store_io::DirStore;

/// The status where no memory is found for the words.
const NO_MEMORY: u8 = 6;

/// Which word names the folder of the database.
const FOLDER_WORD: usize = 1;

/// What a process was given: its words, and the folder that the second of them names.
struct Given {
    words: Vec<String>,
    folder: String,
}

/// Serves the words of this process over its standard input, output and error output and the folder that the second word
/// names, by the threads that it is handed, and answers the exit status of the top call. A word that is not UTF-8 is of no
/// form, so the top call then gets no words and answers 1. Where no memory is found for the words, the line of that status
/// is written and 6 is answered.
pub fn serve_process<T: Threads + Wait + Sync>(rt: &HostRuntime, threads: &T) -> u8 {
    let mut err = StdSink::new(rt.stderr());
    match found(rt) {
        Ok(Given { words, folder }) => {
            let mut source = StdSource::new(rt.stdin());
            let mut out = StdSink::new(rt.stdout());
            let mut store = DirStore::at(rt, folder);
            dcpi(
                threads,
                rt.alloc(),
                &words,
                &mut source,
                &mut store,
                &mut out,
                &mut err,
                &OpenGate,
            )
        }
        Err(_) => {
            let _ = put_all(&mut err, b"dcpi: out of memory\n");
            NO_MEMORY
        }
    }
}

/// The words behind the program's name, and the folder; no words where one of them is not UTF-8.
fn found(rt: &HostRuntime) -> Result<Given, AllocError> {
    let words = words(rt)?;
    let folder = folder(rt, &words)?;
    Ok(Given { words, folder })
}

/// The second word; the empty text where there is none.
fn folder(rt: &HostRuntime, words: &[String]) -> Result<String, AllocError> {
    match words.get(FOLDER_WORD) {
        Some(word) => String::from_str(rt.alloc(), word),
        None => Ok(String::new(rt.alloc())),
    }
}

/// The words behind the program's name; none where one of them is not UTF-8.
fn words(rt: &HostRuntime) -> Result<Vec<String>, AllocError> {
    match env::args(rt) {
        Ok(all) => collected(rt, all),
        Err(error) if error.kind() == io::ErrorKind::OutOfMemory => Err(AllocError),
        Err(_) => Ok(Vec::new(rt.alloc())),
    }
}

/// The words but the first, which is the program's name.
fn collected(rt: &HostRuntime, all: env::Args) -> Result<Vec<String>, AllocError> {
    let mut words = Vec::new(rt.alloc());
    for word in all.skip(1) {
        words.push(word)?;
    }
    Ok(words)
}

//! The program: its words, the files of the current folder, standard input and output.
#![tactic(auto)]

mod command;
mod creating;
mod edge;
mod faults;
mod history;
mod last;
pub mod laws;
mod outcome;
mod run;
mod sending;
mod session;
#[cfg(test)]
mod tests;

pub use edge::{BankFault, FileBank, StdinSource};
pub use run::run;
use std::alloc::Global;
use std::env::FillError;
use std::process::ExitCode;
use std::rt::Env;
use trap_bank::Steady;

// Says that there was no memory, and answers the status.
fn no_memory(rt: &HostRuntime) -> u8 {
    let _ = eprintln!(rt; "limuvosel: {}", BankFault::OutOfMemory);
    10
}

// The word of these bytes, or the status where they aren't UTF-8.
fn word_in(bytes: Vec<u8>) -> Result<Option<String>, u8> {
    match String::from_utf8(bytes) {
        Ok(word) => Ok(Some(word)),
        Err(_) => Err(2),
    }
}

// The word of that number, none after the last, or the status that says why there are none.
fn word_of(rt: &HostRuntime, number: usize) -> Result<Option<String>, u8> {
    let mut room = 256usize;
    for _ in 0..usize::BITS {
        let mut bytes = Vec::new(rt.alloc());
        if bytes.resize(room, 0u8).is_err() {
            return Err(no_memory(rt));
        }
        match rt.arg(number, bytes.as_mut_slice()) {
            Ok(len) => {
                bytes.truncate(len);
                return word_in(bytes);
            }
            Err(FillError::TooLong) => room = room.saturating_add(room),
            Err(FillError::NotPresent) => return Ok(None),
        }
    }
    Err(no_memory(rt))
}

// The words after the program's name, whose own bytes may be any, or the status that says why
// there are none.
fn words_of(rt: &HostRuntime) -> Result<Vec<String>, u8> {
    let mut words = Vec::new(rt.alloc());
    for number in 1..usize::MAX {
        let Some(word) = word_of(rt, number)? else {
            break;
        };
        if words.push(word).is_err() {
            return Err(no_memory(rt));
        }
    }
    Ok(words)
}

// Makes the bank, or says on standard error why there is none.
fn open_bank(rt: HostRuntime, alloc: Global) -> Option<FileBank<HostRuntime>> {
    match FileBank::new(rt, alloc) {
        Ok(bank) => {
            if let Some(why) = bank.unlocked() {
                let _ = eprintln!(rt; "limuvosel: this folder can't be locked: {why}");
            }
            Some(bank)
        }
        Err(why) => {
            let _ = eprintln!(rt; "limuvosel: {why}");
            None
        }
    }
}

fn main(rt: HostRuntime) -> ExitCode {
    let words = match words_of(&rt) {
        Ok(words) => words,
        Err(status) => return ExitCode::from(status),
    };
    let alloc: Global = rt.alloc();
    let Some(mut bank) = open_bank(rt, alloc) else {
        return ExitCode::from(10);
    };
    let mut source = StdinSource::new(rt);
    let mut turns = Steady::new();
    ExitCode::from(run(alloc, words.as_slice(), &mut bank, &mut source, &mut turns))
}

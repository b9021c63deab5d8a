//! Sledgehammer: a replay debugger for RV32IM programs.
#![tactic(auto)]

mod line_sink;

use line_sink::LineSink;
use outside::{FileStore, NoGate, StdSink, StdWorld};
use sledge_top::{Refusal, Status, sledge, write_fault};
use std::env;
use std::io::ErrorKind;
use std::process::ExitCode;

#[cfg(test)]
mod tests;

/// The words after the program's name. One that is no text makes the words no command.
fn words(rt: &HostRuntime) -> Result<Vec<String>, Status> {
    let mut words = Vec::new(rt.alloc());
    let args = match env::args(rt) {
        Ok(args) => args,
        Err(error) => {
            return Err(if error.kind() == ErrorKind::OutOfMemory {
                Status::Memory
            } else {
                Status::Refused(Refusal::Usage)
            });
        }
    };
    for word in args.skip(1) {
        if words.push(word).is_err() {
            return Err(Status::Memory);
        }
    }
    Ok(words)
}

/// Tells how the program ends where the command was not begun.
fn refuse(rt: &HostRuntime, status: &Status) -> ExitCode {
    let mut err = LineSink::new(StdSink::new(rt.stderr()));
    let _ = write_fault(&mut err, status);
    let _ = err.send();
    ExitCode::from(status.code())
}

/// Does the command over files, the process's input and outputs, and a gate that holds nothing up.
fn main(rt: HostRuntime) -> ExitCode {
    let words = match words(&rt) {
        Ok(words) => words,
        Err(status) => return refuse(&rt, &status),
    };
    let Ok(mut world) = StdWorld::new(rt.alloc(), &rt, rt.stdin(), rt.stdout(), rt.stderr()) else {
        return refuse(&rt, &Status::Memory);
    };
    let mut err = LineSink::new(StdSink::new(rt.stderr()));
    let status = sledge(
        &rt,
        rt.alloc(),
        &words,
        &mut FileStore::new(&rt),
        &mut world,
        &mut StdSink::new(rt.stdout()),
        &mut err,
        &NoGate,
    );
    let _ = err.send();
    ExitCode::from(status.code())
}

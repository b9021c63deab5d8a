//! Runs the commands that pages show, and compares what they print with what the pages show.
#![tactic(auto)]

mod comparing;
mod files;
mod folder;
mod page;
mod pieces;
mod running;
#[cfg(test)]
mod tests;
mod trouble;
mod world;

use comparing::{Comparison, run_page};
use files::text_in;
use folder::Folder;
use std::alloc::Global;
use std::env;
use std::process::ExitCode;
use std::rt::Files;
use std::thread::Threads;
use trouble::Trouble;

/// The path of the folder that a file stands in, and the file's name there.
fn split_path(path: &str) -> (&str, &str) {
    match path.rfind('/') {
        Some(end) => path.split_at(end + 1),
        None => ("", path),
    }
}

/// Runs the page at a path.
fn compared<R: Files + Threads + Sync>(
    rt: &R,
    alloc: Global,
    path: &str,
) -> Result<Comparison, Trouble> {
    let (path, name) = split_path(path);
    let mut folder = Folder::new(alloc, rt, path);
    let page = text_in(alloc, &mut folder, name)?;
    run_page(rt, alloc, &mut folder, name, page.as_str())
}

/// Reports what a page came to, and says whether it has commands that all print what it shows.
fn report(rt: &HostRuntime, path: &str, came_to: &Result<Comparison, Trouble>) -> bool {
    let (_, name) = split_path(path);
    let (is_right, printed) = match came_to {
        Ok(
            Comparison {
                commands,
                differing: 0,
                ..
            },
        ) => (
            *commands > 0,
            println!(rt; "{name}: {commands} commands print what the page shows"),
        ),
        Ok(
            Comparison {
                commands,
                differing,
                report,
            },
        ) => (
            false,
            println!(rt; "{report}{name}: {differing} of {commands} commands differ"),
        ),
        Err(Trouble::Unreadable(file)) => (false, println!(rt; "{name}: {file} can't be read")),
        Err(Trouble::Parts) => (false, println!(rt; "{name}: the parts of a file are none")),
        Err(Trouble::Memory) => (false, println!(rt; "{name}: out of memory")),
    };
    is_right && printed.is_ok()
}

/// Runs each page that is named. Names that don't end in `.md` are those of files beside pages.
fn main(rt: HostRuntime) -> ExitCode {
    let Ok(args) = env::args(&rt) else {
        return ExitCode::FAILURE;
    };
    let mut are_right = true;
    for path in args.skip(1) {
        if path.ends_with(".md") {
            let came_to = compared(&rt, rt.alloc(), path.as_str());
            are_right = report(&rt, path.as_str(), &came_to) && are_right;
        }
    }
    if are_right {
        ExitCode::SUCCESS
    } else {
        ExitCode::FAILURE
    }
}

//! Recordings of the greatest size.

ghost use Rattle.std.specs.Prelude.{◌≡◌, ◌+◌, ◌≤◌, length, map, Some, IfOk};
ghost use Rattle.std.specs.List.{AllByRecursion};
ghost use Rattle.rec_format.specs.Rules.{IsListedPage, IsCheckpoint, IsRecordingValue, Rise, last_or, number_of};

use super::fronts::fault_of;
use call_log::End;
use rec_format::RecCause::{Magic, TooLarge};
use rec_format::{CheckpointData, ListedPage, RecFault, Recording, write_recording};
use sl_base::{Refused, Seq};
use std::alloc::{AllocError, Global};
use std::test::Fail;

#[test]
fn files_of_the_greatest_length(rt: HostRuntime) -> Result<(), Fail> {
    let alloc = rt.alloc();
    let mut file = vec![in alloc; 0; 268_435_457]?;
    for (place, cause) in [(268_435_456, TooLarge), (0, Magic)] {
        assert_eq!(rt; fault_of(alloc, &file), Some(RecFault { place, cause }));
        file.truncate(268_435_456);
    }
    let fault = RecFault {
        place: 204,
        cause: TooLarge,
    };
    let printed = format!(in alloc; "{fault}")?;
    assert_eq!(rt; printed.as_str(), "Too large at 204");
    Ok(())
}

/// As many pages as a checkpoint may list, all of them zeros, from the one behind `before` on.
fn pages_behind(alloc: Global, before: u32) -> Result<Seq<ListedPage>, AllocError>
    requires { before ≤ 49152 }
    ensures number { IfOk result (λ pages. length pages ≡ 16384) }
    ensures each { IfOk result (AllByRecursion IsListedPage) }
    ensures rising { IfOk result (λ pages. Rise (Some before) (map number_of pages)) }
    ensures last { IfOk result (λ pages. last_or (Some before) number_of pages ≡ Some (before + 16384)) }
{
    let mut pages = Seq::new(alloc);
    for i in 0..16_384 {
        pages.push(ListedPage {
            number: before + i + 1,
            bytes: Seq::from_vec(vec![in alloc; 0; 4096]?),
        })?;
    }
    Ok(pages)
}

/// A state of zeros with these pages.
fn state(count: u64, pages: Seq<ListedPage>) -> CheckpointData
    requires count { count ≤ 4 }
    requires number { length pages ≤ 16384 }
    requires each { AllByRecursion IsListedPage pages }
    requires rising { Rise None (map number_of pages) }
    ensures is { IsCheckpoint result }
    ensures count { result.count ≡ count }
    ensures pages { result.pages ≡ pages }
{
    CheckpointData {
        count,
        pc: 0,
        x: [0; 31],
        brk: 0,
        brk_end: 0,
        next_call: 0,
        pages,
    }
}

/// A run without an image that lists 65,536 pages, each of them once.
fn many_pages(alloc: Global) -> Result<Recording, AllocError>
    ensures { IfOk result IsRecordingValue }
{
    let mut checkpoints = Seq::new(alloc);
    checkpoints.push(state(1, pages_behind(alloc, 0)?))?;
    checkpoints.push(state(2, pages_behind(alloc, 16_384)?))?;
    checkpoints.push(state(3, pages_behind(alloc, 32_768)?))?;
    Ok(Recording {
        kind: 0,
        load_addr: 0,
        image: Seq::new(alloc),
        args: Seq::new(alloc),
        calls: Seq::new(alloc),
        checkpoints,
        end: End::Stopped,
        last: state(4, pages_behind(alloc, 49_152)?),
    })
}

/// It would have 40 bytes, 152 for each of four checkpoints, and 4,100 for each page. Nothing is
/// made of it.
#[test]
fn a_run_that_is_too_large(rt: HostRuntime) -> Result<(), Fail> {
    let rec = many_pages(rt.alloc())?;
    match write_recording(rt.alloc(), &rec) {
        Err(Refused::Fault(refused)) => assert_eq!(rt; refused.length, 268_698_248),
        _ => return Err("it is written".into()),
    }
    Ok(())
}

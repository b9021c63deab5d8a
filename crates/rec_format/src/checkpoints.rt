//! Reads checkpoints and the pages that they list.

ghost use Rattle.std.specs.Prelude.{◌≡◌, ◌≤◌, [], ◌∷◌, ◌++◌, Some, None, IfOk};
ghost use Rattle.rec_format.specs.Rules.{count_of, last_or};
ghost use Rattle.rec_format.specs.Rules.{listings as all_listings};
ghost use Rattle.rec_format.specs.Sure.{IsSure};
ghost use Rattle.rec_format.specs.Reading.{Gives, page_number_at, page_at, pages_at, count_at, checkpoint_at, checkpoints_at};

use crate::calls::kept;
use crate::cursor::Cursor;
use crate::fault::{RecCause, RecFault, refused};
use crate::limits::{HIGHEST_PAGE, MOST_CHECKPOINTS, MOST_COUNT, MOST_PAGES, PAGE_BYTES};
use crate::listings::Listings;
use crate::recording::{CheckpointData, ListedPage};
use sl_base::{Refused, Seq};
use std::alloc::Global;

/// A page's number, above the one before it in its list.
#[tactic(auto, unfolding(crate::specs::Reading::page_number_at))]
fn page_number(cursor: &mut Cursor<'_>, before: Option<u32>) -> Result<u32, Refused<RecFault>>
    ensures read { Gives (λ n. n) result cursor.new (page_number_at before cursor.old) }
    ensures sure { IsSure result }
{
    let place = cursor.place();
    let number = cursor.word_up_to(HIGHEST_PAGE)?;
    match before {
        Some(before) if number < before => Err(refused(place, RecCause::Order)),
        Some(before) if number == before => Err(refused(place, RecCause::PageRepeated)),
        _ => Ok(number),
    }
}

/// A listed page, which is not as it was last listed.
#[tactic(auto, unfolding(crate::specs::Reading::page_at))]
fn page<'a>(
    alloc: Global,
    cursor: &mut Cursor<'a>,
    before: Option<u32>,
    listings: &mut Listings<'a>,
) -> Result<ListedPage, Refused<RecFault>>
    ensures read { Gives (λ page. page) result cursor.new (page_at before listings.old cursor.old) }
    ensures listed { IfOk result (λ page. listings.new ≡ listings.old ++ page ∷ []) }
{
    let place = cursor.place();
    let number = page_number(cursor, before)?;
    let bytes = cursor.run(PAGE_BYTES as usize)?;
    if let Some(listed) = listings.last(number)
        && listed == bytes
    {
        return Err(refused(place, RecCause::UnneededPage));
    }
    listings.add(number, bytes)?;
    Ok(ListedPage {
        number,
        bytes: kept(alloc, bytes)?,
    })
}

/// The pages of a checkpoint, after their number.
#[tactic(auto, unfolding(crate::specs::Reading::pages_at))]
fn pages<'a>(
    alloc: Global,
    cursor: &mut Cursor<'a>,
    listings: &mut Listings<'a>,
) -> Result<Seq<ListedPage>, Refused<RecFault>>
    ensures read { Gives (λ pages. pages) result cursor.new (pages_at listings.old cursor.old) }
    ensures listed { IfOk result (λ pages. listings.new ≡ listings.old ++ pages) }
{
    let number = cursor.word_up_to(MOST_PAGES)?;
    let mut pages = Seq::new(alloc);
    let mut before = None;
    for _ in 0..number {
        let page = page(alloc, cursor, before, listings)?;
        before = Some(page.number);
        pages.push(page)?;
    }
    Ok(pages)
}

/// A checkpoint's count, above the one before it.
#[tactic(auto, unfolding(crate::specs::Reading::count_at))]
fn count(cursor: &mut Cursor<'_>, before: Option<u64>) -> Result<u64, Refused<RecFault>>
    ensures read { Gives (λ n. n) result cursor.new (count_at before cursor.old) }
    ensures sure { IsSure result }
{
    let place = cursor.place();
    let count = cursor.double_word()?;
    if count > MOST_COUNT {
        return Err(refused(place, RecCause::Range));
    }
    match before {
        Some(before) if count <= before => Err(refused(place, RecCause::Order)),
        _ => Ok(count),
    }
}

/// A checkpoint, after the listings of those before it.
#[tactic(auto, unfolding(crate::specs::Reading::checkpoint_at))]
pub fn checkpoint<'a>(
    alloc: Global,
    cursor: &mut Cursor<'a>,
    before: Option<u64>,
    listings: &mut Listings<'a>,
) -> Result<CheckpointData, Refused<RecFault>>
    ensures read { let due = checkpoint_at before listings.old cursor.old in
        Gives (λ checkpoint. checkpoint) result cursor.new due }
    ensures listed { IfOk result (λ checkpoint. listings.new ≡ listings.old ++ checkpoint.pages) }
{
    let count = count(cursor, before)?;
    let pc = cursor.word()?;
    let x = cursor.words::<31>()?;
    let brk = cursor.word()?;
    let brk_end = cursor.word()?;
    let next_call = cursor.word()?;
    let pages = pages(alloc, cursor, listings)?;
    Ok(CheckpointData {
        count,
        pc,
        x,
        brk,
        brk_end,
        next_call,
        pages,
    })
}

/// The checkpoints before the end, after their number.
#[tactic(auto, unfolding(crate::specs::Reading::checkpoints_at))]
pub fn checkpoints<'a>(
    alloc: Global,
    cursor: &mut Cursor<'a>,
    listings: &mut Listings<'a>,
) -> Result<Seq<CheckpointData>, Refused<RecFault>>
    requires { listings.old ≡ [] }
    ensures read { let due = checkpoints_at cursor.old in
        Gives (λ checkpoints. checkpoints) result cursor.new due }
    ensures listed { IfOk result (λ checkpoints. listings.new ≡ all_listings checkpoints) }
{
    let number = cursor.word_up_to(MOST_CHECKPOINTS)?;
    let mut checkpoints = Seq::new(alloc);
    let mut before = 0;
    for _ in 0..number {
        let checkpoint = checkpoint(alloc, cursor, Some(before), listings)?;
        before = checkpoint.count;
        checkpoints.push(checkpoint)?;
    }
    Ok(checkpoints)
}

/// The count of the last checkpoint, if there is one.
pub fn last_count(checkpoints: &[CheckpointData]) -> Option<u64>
    ensures { result ≡ last_or None count_of checkpoints.now }
{
    match checkpoints {
        [] => None,
        [.., last] => Some(last.count),
    }
}

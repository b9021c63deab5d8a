//! The words that name analyses.

ghost use Rattle.std.specs.Prelude.{◌≡◌, MatchOption, None, IfOk, option_copied, option_map};
ghost use Rattle.analysers.specs.Kinds.{behind, before_colon, behind_colon, named, placed, place_of, point_of, point_kind, valued, word_kind, opened, open_kind, place_kind, kind_of};

use crate::kind::{Kind, KindOf};
use crate::numbers::{hex_value, number};
use sl_base::{Memory, Seq};
use std::alloc::Global;

/// The most digits of a place, and the greatest place.
const PLACE_DIGITS: usize = 3;

const MOST_PLACE: u32 = 255;

/// The most digits of a tracepoint's number, and the greatest such number.
const POINT_DIGITS: usize = 2;

const MOST_POINT: u32 = 63;

/// What stands behind a prefix, where the word begins with it.
fn behind<'a>(prefix: &[u8], word: &'a [u8]) -> Option<&'a [u8]>
    ensures { option_map (λ text. text.now) result ≡ behind prefix.now word.now }
{
    if word.starts_with(prefix) {
        Some(&word[prefix.len()..])
    } else {
        None
    }
}

/// What stands before the first colon, and what stands behind it.
fn at_colon(text: &[u8]) -> (&[u8], &[u8])
    ensures before { result.0.now ≡ before_colon text.now }
    ensures behind { result.1.now ≡ behind_colon text.now }
{
    for (i, c) in text.iter().enumerate() {
        if *c == b':' {
            return (&text[..i], &text[i + 1..]);
        }
    }
    (text, &[])
}

fn place_of(text: &[u8]) -> Option<u32>
    ensures { result ≡ place_of text.now }
{
    number(PLACE_DIGITS, MOST_PLACE, text)
}

fn point_of(text: &[u8]) -> Option<u32>
    ensures { result ≡ point_of text.now }
{
    number(POINT_DIGITS, MOST_POINT, text)
}

/// A kind that is a name alone.
fn named(word: &str) -> Option<KindOf>
    ensures { result ≡ named word.now }
{
    if word == "all" {
        Some(KindOf::All)
    } else if word == "done" {
        Some(KindOf::Done)
    } else if word == "count" {
        Some(KindOf::Count)
    } else if word == "first" {
        Some(KindOf::First)
    } else if word == "last" {
        Some(KindOf::Last)
    } else {
        None
    }
}

/// The place behind a name.
fn placed(name: &[u8], word: &[u8]) -> Option<u32>
    ensures { result ≡ placed name.now word.now }
{
    place_of(behind(name, word)?)
}

/// `point=T`.
fn point_kind(word: &[u8]) -> Option<KindOf>
    ensures { result ≡ point_kind word.now }
{
    let point = point_of(behind(b"point=", word)?)?;
    Some(KindOf::Point(point))
}

/// `word=I:V`.
fn word_kind(word: &[u8]) -> Option<KindOf>
    ensures { result ≡ word_kind word.now }
{
    let (place, value) = at_colon(behind(b"word=", word)?);
    let place = place_of(place)?;
    let value = hex_value(value)?;
    Some(KindOf::Word { place, value })
}

/// `open=T:U`.
fn open_kind(word: &[u8]) -> Option<KindOf>
    ensures { result ≡ open_kind word.now }
{
    let (opens, closes) = at_colon(behind(b"open=", word)?);
    let opens = point_of(opens)?;
    let closes = point_of(closes)?;
    Some(KindOf::Open { opens, closes })
}

/// A kind with a place behind its name.
fn place_kind(word: &[u8]) -> Option<KindOf>
    ensures { result ≡ place_kind word.now }
{
    if let Some(place) = placed(b"changes=", word) {
        Some(KindOf::Changes(place))
    } else if let Some(place) = placed(b"rising=", word) {
        Some(KindOf::Rising(place))
    } else if let Some(place) = placed(b"sum=", word) {
        Some(KindOf::Sum(place))
    } else if let Some(place) = placed(b"least=", word) {
        Some(KindOf::Least(place))
    } else if let Some(place) = placed(b"greatest=", word) {
        Some(KindOf::Greatest(place))
    } else {
        let place = placed(b"hist=", word)?;
        Some(KindOf::Hist(place))
    }
}

/// The kind that a word names, where it names one.
fn kind_of(word: &str) -> Option<KindOf>
    ensures { result ≡ kind_of word.now }
{
    let bytes = word.as_bytes();
    let numbered = open_kind(bytes).or(place_kind(bytes));
    named(word).or(point_kind(bytes).or(word_kind(bytes).or(numbered)))
}

/// The analysis that a word names; `None` exactly where the word names none.
pub fn read_kind(alloc: Global, word: &str) -> Result<Option<Kind>, Memory>
    ensures { IfOk result (λ kind. MatchOption kind (kind_of word.now ≡ None)
        (λ kind. kind.word ≡ word.now)) }
{
    let Some(what) = kind_of(word) else {
        return Ok(None);
    };
    let word = Vec::from_slice(alloc, word.as_bytes())?;
    Ok(Some(Kind {
        word: Seq::from_vec(word),
        what,
    }))
}

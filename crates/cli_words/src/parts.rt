//! Plain words, and options with their values.

ghost use Rattle.std.specs.Prelude.{◌≡◌, true, false, codes};
ghost use Rattle.std.specs.List.{list_all};
ghost use Rattle.std.specs.Str.{bytes_eq};
ghost use Rattle.cli_words.specs.Parts.{Any, begins_with, is_plain, is_repeatable, is_named, stand_once, has_text, are_sound, parts_from, parts_of};
ghost use Rattle.cli_words.specs.Views.{texts, settings_view, parts_view, next_view, Gives, Reads};

use crate::usage::Usage;
use sl_base::Refused;
use std::alloc::Global;

/// An option: its name, with both dashes, and its value.
#[derive(Clone, Copy, Debug)]
pub struct Setting<'a> {
    pub name: &'a str,
    pub value: &'a str,
}

/// The plain words and the options, each in the order of the words.
#[derive(Debug, Drop)]
pub struct Parts<'a> {
    pub plain: Vec<&'a str>,
    pub settings: Vec<Setting<'a>>,
}

/// What the next word may be.
#[derive(Clone, Copy, Debug)]
pub enum Next<'a> {
    /// A plain word, an option or `--`.
    Any,
    /// The value of the option of this name.
    ValueOf(&'a str),
    /// Any word as a plain one, since `--` came before.
    PlainOnly,
}

/// Whether a word is no option.
fn is_plain(word: &str) -> bool
    ensures { result ≡ is_plain word.now }
{
    match word.as_bytes() {
        [b'-', _, ..] => false,
        _ => true,
    }
}

/// Reads a word that begins with `--` and is longer.
fn read_option<'a>(parts: &mut Parts<'a>, word: &'a str) -> Result<Next<'a>, Refused<Usage>>
    requires option { begins_with (codes "--") word.now ≡ true }
    requires longer { bytes_eq word.now (codes "--") ≡ false }
    ensures { Reads (parts_view parts.old) Any word.now result (parts_view parts.new) }
{
    match word.split_once('=') {
        Some((name, value)) => {
            parts.settings.push(Setting { name, value })?;
            Ok(Next::Any)
        }
        None => Ok(Next::ValueOf(word)),
    }
}

/// Reads a word where none is awaited.
fn read_any<'a>(parts: &mut Parts<'a>, word: &'a str) -> Result<Next<'a>, Refused<Usage>>
    ensures { Reads (parts_view parts.old) Any word.now result (parts_view parts.new) }
{
    if word == "--" {
        return Ok(Next::PlainOnly);
    }
    if word.starts_with("--") {
        return read_option(parts, word);
    }
    if !is_plain(word) {
        return Err(Refused::Fault(Usage));
    }
    parts.plain.push(word)?;
    Ok(Next::Any)
}

/// Reads a word.
fn read_word<'a>(
    parts: &mut Parts<'a>,
    next: Next<'a>,
    word: &'a str,
) -> Result<Next<'a>, Refused<Usage>>
    ensures { Reads (parts_view parts.old) (next_view next.entry) word.now result
        (parts_view parts.new) }
{
    match next {
        Next::Any => read_any(parts, word),
        Next::ValueOf(name) => {
            if word.starts_with("-") {
                return Err(Refused::Fault(Usage));
            }
            parts.settings.push(Setting { name, value: word })?;
            Ok(Next::Any)
        }
        Next::PlainOnly => {
            parts.plain.push(word)?;
            Ok(Next::PlainOnly)
        }
    }
}

/// Reads all words.
fn read_all<'a>(alloc: Global, words: &'a [String]) -> Result<Parts<'a>, Refused<Usage>>
    ensures { Gives parts_view result (parts_from Any (texts words.now)) }
{
    let mut parts = Parts {
        plain: Vec::new(alloc),
        settings: Vec::new(alloc),
    };
    let mut next = Next::Any;
    for word in words {
        next = read_word(&mut parts, next, word.as_str())?;
    }
    match next {
        Next::ValueOf(_) => Err(Refused::Fault(Usage)),
        Next::Any | Next::PlainOnly => Ok(parts),
    }
}

/// Whether an option may stand more than once.
fn is_repeatable(name: &str) -> bool
    ensures { result ≡ is_repeatable name.now }
{
    name == "--analyse" || name == "--arg"
}

/// Whether an option of this name stands among these.
fn is_named(settings: &[Setting<'_>], name: &str) -> bool
    ensures { result ≡ is_named name.now (settings_view settings.now) }
{
    for other in settings {
        if other.name == name {
            return true;
        }
    }
    false
}

/// Whether no option stands twice that may not.
fn stand_once(settings: &[Setting<'_>]) -> bool
    ensures { result ≡ stand_once (settings_view settings.now) }
{
    for (i, setting) in settings.iter().enumerate() {
        if !is_repeatable(setting.name) && is_named(&settings[i + 1..], setting.name) {
            return false;
        }
    }
    true
}

/// Whether no value is empty that may not.
fn have_text(settings: &[Setting<'_>]) -> bool
    ensures { result ≡ list_all has_text (settings_view settings.now) }
{
    for setting in settings {
        if setting.name != "--arg" && setting.value.is_empty() {
            return false;
        }
    }
    true
}

/// The plain words and the options, where the general rules hold.
pub fn parts_of<'a>(alloc: Global, words: &'a [String]) -> Result<Parts<'a>, Refused<Usage>>
    ensures { Gives parts_view result (parts_of (texts words.now)) }
{
    let parts = read_all(alloc, words)?;
    if stand_once(&parts.settings) && have_text(&parts.settings) {
        Ok(parts)
    } else {
        Err(Refused::Fault(Usage))
    }
}

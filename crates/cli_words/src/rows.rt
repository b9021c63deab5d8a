//! The rows: the form of each command.

ghost use Rattle.std.specs.Prelude.{◌≡◌, ◌≤◌, IfOk};
ghost use Rattle.std.specs.Option.{option_and_then};
ghost use Rattle.cli_words.specs.Numbers.{hex_value, number};
ghost use Rattle.cli_words.specs.Orders.{one, two, three, trace, trace_at, replay, check, record_image, recut, asm, show, gen, takes, row_of, order_of, Fits};
ghost use Rattle.cli_words.specs.Views.{texts, words_view, settings_view, parts_view, order_view, Gives};

use crate::numbers::{hex_value, number};
use crate::orders::Order;
use crate::parts::{Parts, Setting, parts_of};
use crate::settings::{are_among, every_of, flat_of, record_options, trace_options};
use crate::usage::Usage;
use sl_base::Refused;
use std::alloc::Global;

/// The one plain word of a command.
fn one<'a>(plain: &[&'a str]) -> Result<&'a str, Refused<Usage>>
    ensures { Gives (λ word. word.now) result (one (words_view plain.now)) }
{
    match plain {
        [a] => Ok(a),
        _ => Err(Refused::Fault(Usage)),
    }
}

/// The two plain words of a command.
fn two<'a>(plain: &[&'a str]) -> Result<(&'a str, &'a str), Refused<Usage>>
    ensures { Gives (λ words. (words.0.now, words.1.now)) result (two (words_view plain.now)) }
{
    match plain {
        [a, b] => Ok((a, b)),
        _ => Err(Refused::Fault(Usage)),
    }
}

/// The three plain words of a command.
fn three<'a>(plain: &[&'a str]) -> Result<(&'a str, &'a str, &'a str), Refused<Usage>>
    ensures { Gives (λ words. (words.0.now, words.1.now, words.2.now)) result
        (three (words_view plain.now)) }
{
    match plain {
        [a, b, c] => Ok((a, b, c)),
        _ => Err(Refused::Fault(Usage)),
    }
}

/// A plain word that is a number in hexadecimal digits.
fn hex(word: &str) -> Result<u32, Refused<Usage>>
    ensures { Gives (λ n. n) result (hex_value word.now) }
{
    match hex_value(word) {
        Some(n) => Ok(n),
        None => Err(Refused::Fault(Usage)),
    }
}

/// A plain word that is a number from `low` to `high`.
fn within(low: u32, high: u32, word: &str) -> Result<u32, Refused<Usage>>
    ensures value { Gives (λ n. n) result (number low high word.now) }
    ensures least { IfOk result (λ n. low ≤ n) }
    ensures most { IfOk result (λ n. n ≤ high) }
{
    match number(u64::from(low), u64::from(high), word) {
        Some(n) => Ok(n as u32),
        None => Err(Refused::Fault(Usage)),
    }
}

/// `trace RECORDING SCRIPT`, where the script is not named `at`.
fn trace<'a>(
    alloc: Global,
    plain: &[&'a str],
    settings: &[Setting<'a>],
) -> Result<Order<'a>, Refused<Usage>>
    ensures order { Gives order_view result
        (trace (words_view plain.now) (settings_view settings.now)) }
    ensures range { IfOk result (λ order. Fits (order_view order)) }
{
    let (recording, script) = two(plain)?;
    let options = trace_options(alloc, settings)?;
    if script == "at" {
        return Err(Refused::Fault(Usage));
    }
    Ok(Order::Trace {
        recording,
        script,
        options,
    })
}

/// `trace RECORDING at HEX`.
fn trace_at<'a>(
    alloc: Global,
    plain: &[&'a str],
    settings: &[Setting<'a>],
) -> Result<Order<'a>, Refused<Usage>>
    ensures order { Gives order_view result
        (trace_at (words_view plain.now) (settings_view settings.now)) }
    ensures range { IfOk result (λ order. Fits (order_view order)) }
{
    let (recording, at, word) = three(plain)?;
    let address = hex(word)?;
    let options = trace_options(alloc, settings)?;
    if at != "at" {
        return Err(Refused::Fault(Usage));
    }
    Ok(Order::TraceAt {
        recording,
        address,
        options,
    })
}

/// `record IMAGE OUTPUT`.
fn record_image<'a>(
    alloc: Global,
    plain: &[&'a str],
    settings: &[Setting<'a>],
) -> Result<Order<'a>, Refused<Usage>>
    ensures order { Gives order_view result
        (record_image (words_view plain.now) (settings_view settings.now)) }
    ensures range { IfOk result (λ order. Fits (order_view order)) }
{
    let (image, output) = two(plain)?;
    let options = record_options(alloc, settings)?;
    Ok(Order::Record {
        image,
        output,
        options,
    })
}

/// `recut RECORDING OUTPUT`.
fn recut<'a>(plain: &[&'a str], settings: &[Setting<'a>]) -> Result<Order<'a>, Refused<Usage>>
    ensures order { Gives order_view result
        (recut (words_view plain.now) (settings_view settings.now)) }
    ensures range { IfOk result (λ order. Fits (order_view order)) }
{
    let (recording, output) = two(plain)?;
    let every = every_of(settings)?;
    Ok(Order::Recut {
        recording,
        output,
        every,
    })
}

/// `show IMAGE HEX N`.
fn show<'a>(plain: &[&'a str], settings: &[Setting<'a>]) -> Result<Order<'a>, Refused<Usage>>
    ensures order { Gives order_view result
        (show (words_view plain.now) (settings_view settings.now)) }
    ensures range { IfOk result (λ order. Fits (order_view order)) }
{
    let (image, address, lines) = three(plain)?;
    let address = hex(address)?;
    let lines = within(1, 4096, lines)?;
    let flat = flat_of(settings)?;
    Ok(Order::Show {
        image,
        address,
        lines,
        flat,
    })
}

/// `gen SEED SIZE`.
fn generate<'a>(plain: &[&'a str]) -> Result<Order<'a>, Refused<Usage>>
    ensures order { Gives order_view result (gen (words_view plain.now)) }
    ensures range { IfOk result (λ order. Fits (order_view order)) }
{
    let (seed, size) = two(plain)?;
    let seed = within(0, u32::MAX, seed)?;
    let size = within(1, 1_000_000, size)?;
    Ok(Order::Gen { seed, size })
}

/// `replay RECORDING`.
fn replay<'a>(plain: &[&'a str]) -> Result<Order<'a>, Refused<Usage>>
    ensures order { Gives order_view result (replay (words_view plain.now)) }
    ensures range { IfOk result (λ order. Fits (order_view order)) }
{
    let recording = one(plain)?;
    Ok(Order::Replay { recording })
}

/// `check RECORDING`.
fn check<'a>(plain: &[&'a str]) -> Result<Order<'a>, Refused<Usage>>
    ensures order { Gives order_view result (check (words_view plain.now)) }
    ensures range { IfOk result (λ order. Fits (order_view order)) }
{
    let recording = one(plain)?;
    Ok(Order::Check { recording })
}

/// `asm SOURCE OUTPUT`.
fn asm<'a>(plain: &[&'a str]) -> Result<Order<'a>, Refused<Usage>>
    ensures order { Gives order_view result (asm (words_view plain.now)) }
    ensures range { IfOk result (λ order. Fits (order_view order)) }
{
    let (source, output) = two(plain)?;
    Ok(Order::Asm { source, output })
}

/// Whether the options that a command takes are the only ones.
fn takes(command: &str, settings: &[Setting<'_>]) -> bool
    ensures { result ≡ takes command.now (settings_view settings.now) }
{
    if command == "trace" {
        are_among(&["--workers", "--epochs", "--analyse"], settings)
    } else if command == "record" {
        are_among(&["--flat", "--limit", "--every", "--arg"], settings)
    } else if command == "recut" {
        are_among(&["--every"], settings)
    } else if command == "show" {
        are_among(&["--flat"], settings)
    } else {
        are_among(&[], settings)
    }
}

/// The row of the command of this name.
fn row_of<'a>(
    alloc: Global,
    command: &str,
    plain: &[&'a str],
    settings: &[Setting<'a>],
) -> Result<Order<'a>, Refused<Usage>>
    ensures order { Gives order_view result
        (row_of command.now (words_view plain.now) (settings_view settings.now)) }
    ensures range { IfOk result (λ order. Fits (order_view order)) }
{
    if command == "trace" {
        if plain.len() == 2 {
            trace(alloc, plain, settings)
        } else {
            trace_at(alloc, plain, settings)
        }
    } else if command == "replay" {
        replay(plain)
    } else if command == "check" {
        check(plain)
    } else if command == "record" {
        record_image(alloc, plain, settings)
    } else if command == "recut" {
        recut(plain, settings)
    } else if command == "asm" {
        asm(plain)
    } else if command == "show" {
        show(plain, settings)
    } else if command == "gen" {
        generate(plain)
    } else {
        Err(Refused::Fault(Usage))
    }
}

/// The command that the words name; `Usage` exactly where they are in no row. The first word names
/// it; numbers and options that were left out stand in it with their defaults.
pub fn read_words<'a>(alloc: Global, words: &'a [String]) -> Result<Order<'a>, Refused<Usage>>
    ensures order { Gives order_view result (order_of (texts words.now)) }
    ensures range { IfOk result (λ order. Fits (order_view order)) }
{
    let [command, words @ ..] = words else {
        return Err(Refused::Fault(Usage));
    };
    let command = command.as_str();
    let parts = parts_of(alloc, words)?;
    if !takes(command, &parts.settings) {
        return Err(Refused::Fault(Usage));
    }
    row_of(alloc, command, &parts.plain, &parts.settings)
}

//! The values of options.

ghost use Rattle.std.specs.Prelude.{◌≡◌, ◌≤◌, IfOk, IfSome, true, codes, length};
ghost use Rattle.std.specs.Option.{option_map};
ghost use Rattle.cli_words.specs.Numbers.{hex_value, number};
ghost use Rattle.cli_words.specs.Orders.{value_of, values_of, is_among, are_among, optional, with_default, analyses_of, every_of, flat_of, has_no_zero, fit, arguments_of, trace_options, record_options, FitsTrace, FitsRecord, IsDistance};
ghost use Rattle.cli_words.specs.Views.{words_view, settings_view, trace_view, record_view, Gives};

use crate::numbers::{hex_value, number};
use crate::orders::{RecordOptions, TraceOptions};
use crate::parts::Setting;
use crate::usage::Usage;
use sl_base::Refused;
use std::alloc::{AllocError, Global};

/// The value of the option of this name.
fn value_of<'a>(name: &str, settings: &[Setting<'a>]) -> Option<&'a str>
    ensures { option_map (λ value. value.now) result
        ≡ value_of name.now (settings_view settings.now) }
{
    for setting in settings {
        if setting.name == name {
            return Some(setting.value);
        }
    }
    None
}

/// The values of the options of this name.
fn values_of<'a>(
    alloc: Global,
    name: &str,
    settings: &[Setting<'a>],
) -> Result<Vec<&'a str>, AllocError>
    ensures { IfOk result (λ values.
        words_view values.items ≡ values_of name.now (settings_view settings.now)) }
{
    let mut values = Vec::new(alloc);
    for setting in settings {
        if setting.name == name {
            values.push(setting.value)?;
        }
    }
    Ok(values)
}

/// Whether a name is one of these.
fn is_among(names: &[&str], name: &str) -> bool
    ensures { result ≡ is_among (words_view names.now) name.now }
{
    for other in names {
        if name == *other {
            return true;
        }
    }
    false
}

/// Whether each option has one of these names.
pub fn are_among(names: &[&str], settings: &[Setting<'_>]) -> bool
    ensures { result ≡ are_among (words_view names.now) (settings_view settings.now) }
{
    for setting in settings {
        if !is_among(names, setting.name) {
            return false;
        }
    }
    true
}

/// The number of an option from `low` to `high`, or `default` where it is left out.
fn number_or(
    default: u64,
    low: u64,
    high: u64,
    name: &str,
    settings: &[Setting<'_>],
) -> Result<u64, Refused<Usage>>
    requires least { low ≤ default }
    requires most { default ≤ high }
    ensures value { Gives (λ n. n) result
        (with_default default (number low high) (value_of name.now (settings_view settings.now))) }
    ensures least { IfOk result (λ n. low ≤ n) }
    ensures most { IfOk result (λ n. n ≤ high) }
{
    match value_of(name, settings) {
        None => Ok(default),
        Some(word) => match number(low, high, word) {
            Some(n) => Ok(n),
            None => Err(Refused::Fault(Usage)),
        },
    }
}

/// The number of epochs, where it is given.
fn epochs_of(settings: &[Setting<'_>]) -> Result<Option<u32>, Refused<Usage>>
    ensures value { Gives (λ n. n) result
        (optional (number 1 4096) (value_of (codes "--epochs") (settings_view settings.now))) }
    ensures range { IfOk result (λ epochs. IfSome epochs (λ n. (1 ≤ n) × (n ≤ 4096))) }
{
    match value_of("--epochs", settings) {
        None => Ok(None),
        Some(word) => match number(1, 4096, word) {
            Some(n) => Ok(Some(n as u32)),
            None => Err(Refused::Fault(Usage)),
        },
    }
}

/// Where the bytes of a flat image go, where it is given.
pub fn flat_of(settings: &[Setting<'_>]) -> Result<Option<u32>, Refused<Usage>>
    ensures { Gives (λ n. n) result (flat_of (settings_view settings.now)) }
{
    match value_of("--flat", settings) {
        None => Ok(None),
        Some(word) => match hex_value(word) {
            Some(n) => Ok(Some(n)),
            None => Err(Refused::Fault(Usage)),
        },
    }
}

/// The distance between checkpoints.
pub fn every_of(settings: &[Setting<'_>]) -> Result<u64, Refused<Usage>>
    ensures value { Gives (λ n. n) result (every_of (settings_view settings.now)) }
    ensures range { IfOk result IsDistance }
{
    number_or(1_000_000, 1, 1 << 40, "--every", settings)
}

/// The words of the analyses, `all` where none is given.
fn analyses_of<'a>(alloc: Global, settings: &[Setting<'a>]) -> Result<Vec<&'a str>, Refused<Usage>>
    ensures { Gives (λ kinds. words_view kinds.items) result
        (analyses_of (settings_view settings.now)) }
{
    let mut kinds = values_of(alloc, "--analyse", settings)?;
    if kinds.len() > 32 {
        return Err(Refused::Fault(Usage));
    }
    if kinds.is_empty() {
        kinds.push("all")?;
    }
    Ok(kinds)
}

/// How a trace is made.
pub fn trace_options<'a>(
    alloc: Global,
    settings: &[Setting<'a>],
) -> Result<TraceOptions<'a>, Refused<Usage>>
    ensures value { Gives trace_view result (trace_options (settings_view settings.now)) }
    ensures range { IfOk result (λ options. FitsTrace (trace_view options)) }
{
    let workers = number_or(1, 1, 16, "--workers", settings)? as u32;
    let epochs = epochs_of(settings)?;
    let analyses = analyses_of(alloc, settings)?;
    Ok(TraceOptions {
        workers,
        epochs,
        analyses,
    })
}

/// Whether a text holds no zero byte.
fn has_no_zero(text: &str) -> bool
    ensures { result ≡ has_no_zero text.now }
{
    for byte in text.as_bytes() {
        if *byte == 0 {
            return false;
        }
    }
    true
}

/// The most bytes of all arguments, with a zero byte behind each.
const MOST_ARGUMENT_BYTES: usize = 65_536;

/// Whether arguments are few enough bytes, and none of these is zero.
fn fit(arguments: &[&str]) -> bool
    ensures { result ≡ fit (words_view arguments.now) }
{
    let mut total = 0usize;
    for argument in arguments {
        if !has_no_zero(argument) || argument.len() >= MOST_ARGUMENT_BYTES - total {
            return false;
        }
        total += argument.len() + 1;
    }
    true
}

/// The arguments of a program.
fn arguments_of<'a>(alloc: Global, settings: &[Setting<'a>]) -> Result<Vec<&'a str>, Refused<Usage>>
    ensures value { Gives (λ words. words_view words.items) result
        (arguments_of (settings_view settings.now)) }
    ensures few { IfOk result (λ words. length (words_view words.items) ≤ 64) }
    ensures fit { IfOk result (λ words. fit (words_view words.items) ≡ true) }
{
    let arguments = values_of(alloc, "--arg", settings)?;
    if arguments.len() > 64 || !fit(&arguments) {
        return Err(Refused::Fault(Usage));
    }
    Ok(arguments)
}

/// How a recording is made.
pub fn record_options<'a>(
    alloc: Global,
    settings: &[Setting<'a>],
) -> Result<RecordOptions<'a>, Refused<Usage>>
    ensures value { Gives record_view result (record_options (settings_view settings.now)) }
    ensures range { IfOk result (λ options. FitsRecord (record_view options)) }
{
    let flat = flat_of(settings)?;
    let limit = number_or(1_000_000_000, 1, 1 << 40, "--limit", settings)?;
    let every = every_of(settings)?;
    let arguments = arguments_of(alloc, settings)?;
    Ok(RecordOptions {
        flat,
        limit,
        every,
        arguments,
    })
}

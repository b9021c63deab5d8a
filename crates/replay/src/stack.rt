//! What a program finds on its stack: its arguments.

ghost use Rattle.std.specs.Prelude.{◌≡◌, ◌+◌, ◌-◌, ◌*◌, ◌/◌, ◌<◌, ◌≤◌, ◌++◌, length, IfOk, OnOk};
ghost use Rattle.std.specs.List.{flat_map};
ghost use Rattle.sl_model.specs.Pages.{low_bytes};
ghost use Rattle.rec_format.specs.Rules.{AreArguments, args_size};
ghost use Rattle.replay.specs.Opening.{strings, strings_start, string_addresses, stack_words, stack_pointer};

use sl_base::{Memory, Seq};
use sl_model::STACK_END;
use std::alloc::Global;

/// The bytes of the arguments, each with a zero byte behind it.
fn strings_len(args: &[Seq<u8>]) -> u32
    requires { AreArguments args.now }
    ensures { result ≡ length (strings args.now) }
{
    let mut len = 0;
    for arg in args {
        len += arg.len() as u32 + 1;
    }
    len
}

/// The address of the first argument.
pub(crate) fn strings_start(args: &[Seq<u8>]) -> u32
    requires { AreArguments args.now }
    ensures { result ≡ strings_start args.now }
{
    STACK_END - (strings_len(args) + 15) / 16 * 16
}

/// The stack pointer.
pub(crate) fn stack_pointer(args: &[Seq<u8>]) -> u32
    requires { AreArguments args.now }
    ensures { result ≡ stack_pointer args.now }
{
    let words = args.len() as u32 + 5;
    (strings_start(args) - 4 * words) / 16 * 16
}

/// The arguments, each with a zero byte behind it.
pub(crate) fn strings(alloc: Global, args: &[Seq<u8>]) -> Result<Vec<u8>, Memory>
    ensures { IfOk result (λ bytes. bytes.items ≡ strings args.now) }
{
    let mut bytes = Vec::new(alloc);
    for arg in args {
        bytes.extend_from_slice(arg.as_slice())?;
        bytes.push(0)?;
    }
    Ok(bytes)
}

/// The words at the stack pointer, in bytes.
pub(crate) fn stack_words(alloc: Global, args: &[Seq<u8>]) -> Result<Vec<u8>, Memory>
    requires { AreArguments args.now }
    ensures { IfOk result (λ bytes. bytes.items ≡ flat_map (low_bytes 4) (stack_words args.now)) }
{
    let mut words = Vec::new(alloc);
    push_word(&mut words, args.len() as u32)?;
    let mut address = strings_start(args);
    for arg in args {
        push_word(&mut words, address)?;
        address += arg.len() as u32 + 1;
    }
    words.extend_from_slice(&[0u8; 16])?;
    Ok(words)
}

/// Adds the four bytes of a word, the lowest first.
fn push_word(bytes: &mut Vec<u8>, word: u32) -> Result<(), Memory>
    ensures { OnOk result (bytes.new.items ≡ bytes.old.items ++ low_bytes 4 word) }
{
    let low = [
        (word % 256) as u8,
        (word / 256 % 256) as u8,
        (word / 256 / 256 % 256) as u8,
        (word / 256 / 256 / 256 % 256) as u8,
    ];
    bytes.extend_from_slice(&low)?;
    Ok(())
}

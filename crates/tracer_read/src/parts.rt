//! The parts of lists.

ghost use Rattle.std.specs.Prelude.{◌≡◌, ◌≤◌, ◌==◌, ◌%◌, ◌^◌, length, OnOk};
ghost use Rattle.std.specs.Result.{result_ok};
ghost use Rattle.sl_base.specs.Refusals.{Gives};
ghost use Rattle.tracer_text.specs.Nodes.{tree_of, trees_of};
ghost use Rattle.tracer_read.specs.Parts.{spelling, place_of, word_of, number_of, number_within, name_index, new_name, new_local, symbol_value, symbol_of, only_part, two_parts, part_count};

use crate::numbers::{is_number, number_value};
use sl_base::{Memory, Refused, Symbol};
use tracer_text::{Node, Nodes, ScriptCause, ScriptFault, Token};

/// The most locals of a body.
const MOST_LOCALS: usize = 16;

/// The refusal of a text with a fault.
pub fn refusal(place: u32, cause: ScriptCause) -> Refused<ScriptFault>
    ensures { result ≡ Refused.Fault (record { place = place; cause = cause }) }
{
    Refused::Fault(ScriptFault { place, cause })
}

/// The bytes of a token.
pub fn spelling(text: &[u8], token: Token) -> &[u8]
    ensures { result.now ≡ spelling text.now token }
{
    let end = (token.end as usize).min(text.len());
    let place = (token.place as usize).min(end);
    &text[place..end]
}

/// The offset of a node's first byte.
pub fn place_of(node: &Node) -> u32
    ensures { result ≡ place_of (tree_of node.now) }
{
    match node {
        Node::Atom(token) => token.place,
        Node::List(place, _) => *place,
    }
}

/// The word that a node is.
pub fn word(text: &[u8], node: &Node) -> Option<Token>
    ensures { result ≡ result_ok (word_of text.now (tree_of node.now)) }
{
    match node {
        Node::Atom(token) if !is_number(spelling(text, *token)) => Some(*token),
        _ => None,
    }
}

/// The word in a place that takes a name.
pub fn word_of(text: &[u8], node: &Node) -> Result<Token, Refused<ScriptFault>>
    ensures { Gives (λ token. token) result (word_of text.now (tree_of node.now)) }
{
    match node {
        Node::Atom(token) if !is_number(spelling(text, *token)) => Ok(*token),
        _ => Err(refusal(place_of(node), ScriptCause::Form)),
    }
}

/// The number in a place that takes one.
pub fn number_of(text: &[u8], node: &Node) -> Result<u32, Refused<ScriptFault>>
    ensures { Gives (λ n. n) result (number_of text.now (tree_of node.now)) }
{
    let Node::Atom(token) = node else {
        return Err(refusal(place_of(node), ScriptCause::Form));
    };
    let word = spelling(text, *token);
    if !is_number(word) {
        return Err(refusal(token.place, ScriptCause::Form));
    }
    match number_value(word) {
        Some(value) => Ok(value),
        None => Err(refusal(token.place, ScriptCause::Number)),
    }
}

/// The number from `least` to `most` in a place that takes one.
pub fn number_within(
    least: u32,
    most: u32,
    text: &[u8],
    node: &Node,
) -> Result<u32, Refused<ScriptFault>>
    ensures { Gives (λ n. n) result (number_within least most text.now (tree_of node.now)) }
{
    let number = number_of(text, node)?;
    if least <= number && number <= most {
        Ok(number)
    } else {
        Err(refusal(place_of(node), ScriptCause::Number))
    }
}

/// The number of the first of these names that is spelled as a token.
pub fn name_index(text: &[u8], names: &[Token], token: Token) -> Option<usize>
    ensures { result ≡ name_index text.now names.now token }
{
    let word = spelling(text, token);
    names.iter().position(|name| spelling(text, *name) == word)
}

/// Puts a new name behind the others.
pub fn new_name(
    text: &[u8],
    names: &mut Vec<Token>,
    token: Token,
) -> Result<(), Refused<ScriptFault>>
    ensures { Gives (λ _. names.new.items) result (new_name text.now names.old.items token) }
{
    if name_index(text, names, token).is_some() {
        return Err(refusal(token.place, ScriptCause::NameDoubled));
    }
    names.push(token)?;
    Ok(())
}

/// Puts a new local or parameter behind those of a body.
pub fn new_local(
    text: &[u8],
    names: &mut Vec<Token>,
    token: Token,
) -> Result<(), Refused<ScriptFault>>
    requires { length names.old.items ≤ 16 }
    ensures value { Gives (λ _. names.new.items) result
        (new_local text.now names.old.items token) }
    ensures few { OnOk result (length names.new.items ≤ 16) }
{
    let locals = names.len();
    new_name(text, names, token)?;
    if locals == MOST_LOCALS {
        return Err(refusal(token.place, ScriptCause::TooLarge));
    }
    Ok(())
}

/// What a symbol stands for.
fn value_of(symbol: &Symbol) -> u32
    ensures { result ≡ symbol.now.value % 2 ^ 32 }
{
    symbol.value
}

/// The value of the first symbol of a name.
fn symbol_value(symbols: &[Symbol], name: &[u8]) -> Option<u32>
    ensures { result ≡ symbol_value symbols.now name.now }
{
    for symbol in symbols {
        if symbol.name.as_slice() == name {
            return Some(value_of(symbol));
        }
    }
    None
}

/// The value of the symbol in a place that takes one.
pub fn symbol_of(text: &[u8], symbols: &[Symbol], node: &Node) -> Result<u32, Refused<ScriptFault>>
    ensures { Gives (λ n. n) result (symbol_of text.now symbols.now (tree_of node.now)) }
{
    let token = word_of(text, node)?;
    match symbol_value(symbols, spelling(text, token)) {
        Some(value) => Ok(value),
        None => Err(refusal(token.place, ScriptCause::SymbolUnknown)),
    }
}

/// The only part of a list.
pub fn only_part(place: u32, parts: &Nodes) -> Result<&Node, Refused<ScriptFault>>
    ensures { Gives (λ node. tree_of node.now) result (only_part place (trees_of parts.now)) }
{
    if let Nodes::And(node, rest) = parts
        && let Nodes::End = **rest
    {
        return Ok(node);
    }
    Err(refusal(place, ScriptCause::Arity))
}

/// The only two parts of a list.
pub fn two_parts(place: u32, parts: &Nodes) -> Result<(&Node, &Node), Refused<ScriptFault>>
    ensures { Gives (λ nodes. (tree_of nodes.0.now, tree_of nodes.1.now)) result
        (two_parts place (trees_of parts.now)) }
{
    if let Nodes::And(first, rest) = parts
        && let Nodes::And(second, rest) = &**rest
        && let Nodes::End = **rest
    {
        return Ok((first, second));
    }
    Err(refusal(place, ScriptCause::Arity))
}

/// Whether two lists have as many parts.
pub fn have_as_many(first: &Nodes, second: &Nodes) -> bool
    ensures { result ≡ (part_count (trees_of first.now) == part_count (trees_of second.now)) }
{
    let mut left = first;
    let mut right = second;
    loop {
        match (left, right) {
            (Nodes::End, Nodes::End) => return true,
            (Nodes::And(_, more), Nodes::And(_, others)) => {
                left = more;
                right = others;
            }
            _ => return false,
        }
    }
}

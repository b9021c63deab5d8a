//! Reads the lists of the top level.

ghost use Rattle.std.specs.Prelude.{◌≡◌, ◌≤◌, ◌<◌, ◌^◌, [], length, map, IfOk, OnOk, option_map};
ghost use Rattle.sl_base.specs.Refusals.{Gives};
ghost use Rattle.tracer_text.specs.Nodes.{tree_of, trees_of};
ghost use Rattle.tracer_read.specs.Heads.{named, item_names, point_names};
ghost use Rattle.tracer_read.specs.Parts.{part_count};
ghost use Rattle.tracer_read.specs.Expressions.{head};
ghost use Rattle.tracer_read.specs.Scripts.{callee_from, callee_at, callee_named, callees, budget_form, parameters_of, parameter_list, def_form, store_point, point_form, point_of, at_form, item_form, item, items, nothing};
ghost use Rattle.tracer_read.specs.Views.{callee_of, around};
ghost use Rattle.tracer_read.specs.Drafts.{draft_of};

use crate::context::{Context, Signature};
use crate::draft::Draft;
use crate::heads::{ItemHead, PointHead, item_head, point_head};
use crate::parts::{
    new_local, new_name, number_of, number_within, only_part, place_of, refusal, spelling,
    symbol_of, two_parts, word, word_of,
};
use crate::statements::read_block;
use sl_base::{Memory, Refused, Seq};
use std::alloc::Global;
use tracer_lang::{Function, Point, Tracepoint};
use tracer_text::{Node, Nodes, ScriptCause, ScriptFault, Token};

/// The most tracepoints of a script.
const MOST_TRACEPOINTS: usize = 64;

/// What a list of the top level is whose first part this is.
fn item_of(text: &[u8], first: &Node) -> Option<ItemHead>
    ensures { result ≡ head (λ word. named word item_names) text.now (tree_of first.now) }
{
    match first {
        Node::Atom(token) => item_head(spelling(text, *token)),
        Node::List(_, _) => None,
    }
}

/// What a tracepoint is whose list's first part this is.
fn point_kind(text: &[u8], first: &Node) -> Option<PointHead>
    ensures { result ≡ head (λ word. named word point_names) text.now (tree_of first.now) }
{
    match first {
        Node::Atom(token) => point_head(spelling(text, *token)),
        Node::List(_, _) => None,
    }
}

/// The function of these parts of a list, if it may be called.
fn signature_from<'a>(text: &[u8], parts: &'a Nodes) -> Option<Signature<'a>>
    ensures { option_map callee_of result ≡ callee_from text.now (trees_of parts.now) }
{
    let Nodes::And(name, rest) = parts else {
        return None;
    };
    let Nodes::And(list, _) = &**rest else {
        return None;
    };
    let Node::List(_, parameters) = &**list else {
        return None;
    };
    let name = word(text, name)?;
    Some(Signature { name, parameters })
}

/// The function that a list of the top level is, if it may be called.
fn signature_of<'a>(text: &[u8], node: &'a Node) -> Option<Signature<'a>>
    ensures { option_map callee_of result ≡ callee_at text.now (tree_of node.now) }
{
    if let Node::List(_, parts) = node
        && let Nodes::And(first, rest) = &**parts
        && let Some(ItemHead::Def) = item_of(text, first)
    {
        return signature_from(text, rest);
    }
    None
}

/// The functions that may be called, in order.
pub fn signatures<'a>(
    alloc: Global,
    text: &[u8],
    nodes: &'a Nodes,
) -> Result<Vec<Signature<'a>>, Memory>
    ensures value { IfOk result (λ found.
        map callee_of found.items ≡ callees text.now (trees_of nodes.now)) }
    ensures few { IfOk result (λ found. length found.items ≤ part_count (trees_of nodes.now)) }
{
    let mut found = Vec::new(alloc);
    let mut left = nodes;
    while let Nodes::And(node, rest) = left {
        if let Some(signature) = signature_of(text, node) {
            found.push(signature)?;
        }
        left = rest;
    }
    Ok(found)
}

/// `(budget N)`, from its parts.
fn read_budget(
    context: &Context<'_>,
    place: u32,
    parts: &Nodes,
    draft: &mut Draft,
) -> Result<(), Refused<ScriptFault>>
    ensures { Gives (λ _. draft_of draft.new) result
        (budget_form (around context.now) place (trees_of parts.now) (draft_of draft.old)) }
{
    let node = only_part(place, parts)?;
    if draft.budget.is_some() {
        return Err(refusal(place, ScriptCause::NameDoubled));
    }
    draft.budget = Some(number_within(1, 1_000_000, context.text, node)?);
    Ok(())
}

/// The parameters of a function.
fn read_parameters(
    alloc: Global,
    text: &[u8],
    parameters: &Nodes,
) -> Result<Vec<Token>, Refused<ScriptFault>>
    ensures value { Gives (λ names. names.items) result
        (parameters_of text.now [] (trees_of parameters.now)) }
    ensures few { IfOk result (λ names. length names.items ≤ 16) }
{
    let mut names = Vec::new(alloc);
    let mut left = parameters;
    while let Nodes::And(node, rest) = left {
        let name = word_of(text, node)?;
        new_local(text, &mut names, name)?;
        left = rest;
    }
    Ok(names)
}

/// `(def F (P P) S S)`, from its parts.
fn read_def(
    alloc: Global,
    context: &Context<'_>,
    place: u32,
    parts: &Nodes,
    draft: &mut Draft,
) -> Result<(), Refused<ScriptFault>>
    ensures { Gives (λ _. draft_of draft.new) result
        (def_form (around context.now) place (trees_of parts.now) (draft_of draft.old)) }
{
    let Nodes::And(name, rest) = parts else {
        return Err(refusal(place, ScriptCause::Arity));
    };
    let Nodes::And(list, body) = &**rest else {
        return Err(refusal(place, ScriptCause::Arity));
    };
    let name = word_of(context.text, name)?;
    new_name(context.text, &mut draft.names, name)?;
    let Node::List(_, list) = &**list else {
        return Err(refusal(place_of(list), ScriptCause::Form));
    };
    let mut locals = read_parameters(alloc, context.text, list)?;
    let parameters = locals.len() as u32;
    let body = read_block(alloc, context, &mut locals, body)?;
    let locals = locals.len() as u32;
    draft.functions.push(Function {
        parameters,
        locals,
        body,
    })?;
    Ok(())
}

/// `(store N N)` as a tracepoint, from its parts.
fn read_range(text: &[u8], address: &Node, len: &Node) -> Result<Point, Refused<ScriptFault>>
    ensures { Gives (λ p. p) result
        (store_point text.now (tree_of address.now, tree_of len.now)) }
{
    let first = number_of(text, address)?;
    let count = number_of(text, len)?;
    if count >= 1 && u64::from(first) + u64::from(count) <= 1 << 32 {
        Ok(Point::Store {
            address: first,
            len: count,
        })
    } else {
        Err(refusal(place_of(len), ScriptCause::Number))
    }
}

/// A tracepoint, from the parts behind its head.
fn read_point_form(
    context: &Context<'_>,
    place: u32,
    head: PointHead,
    parts: &Nodes,
) -> Result<Point, Refused<ScriptFault>>
    ensures { Gives (λ p. p) result
        (point_form (around context.now) place (trees_of parts.now) (Some head)) }
{
    match head {
        PointHead::Addr => {
            let node = only_part(place, parts)?;
            Ok(Point::Addr(number_of(context.text, node)?))
        }
        PointHead::Enter => {
            let node = only_part(place, parts)?;
            Ok(Point::Enter(symbol_of(context.text, context.symbols, node)?))
        }
        PointHead::Store => {
            let (address, len) = two_parts(place, parts)?;
            read_range(context.text, address, len)
        }
    }
}

/// Where a tracer fires.
fn read_point(context: &Context<'_>, node: &Node) -> Result<Point, Refused<ScriptFault>>
    ensures { Gives (λ p. p) result (point_of (around context.now) (tree_of node.now)) }
{
    let (place, parts) = match node {
        Node::Atom(token) => return Err(refusal(token.place, ScriptCause::Form)),
        Node::List(place, parts) => (*place, parts),
    };
    if let Nodes::And(first, rest) = &**parts
        && let Some(head) = point_kind(context.text, first)
    {
        return read_point_form(context, place, head, rest);
    }
    Err(refusal(place, ScriptCause::Form))
}

/// `(at POINT S S)`, from its parts.
fn read_at(
    alloc: Global,
    context: &Context<'_>,
    place: u32,
    parts: &Nodes,
    draft: &mut Draft,
) -> Result<(), Refused<ScriptFault>>
    ensures { Gives (λ _. draft_of draft.new) result
        (at_form (around context.now) place (trees_of parts.now) (draft_of draft.old)) }
{
    let Nodes::And(point, body) = parts else {
        return Err(refusal(place, ScriptCause::Arity));
    };
    if draft.tracepoints.len() == MOST_TRACEPOINTS {
        return Err(refusal(place, ScriptCause::TooLarge));
    }
    let point = read_point(context, point)?;
    let mut locals = Vec::new(alloc);
    let body = read_block(alloc, context, &mut locals, body)?;
    let locals = locals.len() as u32;
    draft.tracepoints.push(Tracepoint {
        point,
        locals,
        body,
    })?;
    Ok(())
}

/// Reads one more list of the top level.
fn read_item(
    alloc: Global,
    context: &Context<'_>,
    node: &Node,
    draft: &mut Draft,
) -> Result<(), Refused<ScriptFault>>
    ensures { Gives (λ _. draft_of draft.new) result
        (item (around context.now) (tree_of node.now) (draft_of draft.old)) }
{
    let (place, parts) = match node {
        Node::Atom(token) => return Err(refusal(token.place, ScriptCause::Form)),
        Node::List(place, parts) => (*place, parts),
    };
    let Nodes::And(first, rest) = &**parts else {
        return Err(refusal(place, ScriptCause::Form));
    };
    match item_of(context.text, first) {
        None => Err(refusal(place, ScriptCause::Form)),
        Some(ItemHead::Budget) => read_budget(context, place, rest, draft),
        Some(ItemHead::Def) => read_def(alloc, context, place, rest, draft),
        Some(ItemHead::At) => read_at(alloc, context, place, rest, draft),
    }
}

/// Reads the lists of the top level.
pub fn read_items(
    alloc: Global,
    context: &Context<'_>,
    nodes: &Nodes,
) -> Result<Draft, Refused<ScriptFault>>
    ensures { Gives draft_of result
        (items (around context.now) (trees_of nodes.now) nothing) }
{
    let mut draft = Draft {
        budget: None,
        names: Vec::new(alloc),
        functions: Seq::new(alloc),
        tracepoints: Seq::new(alloc),
    };
    let mut left = nodes;
    while let Nodes::And(node, rest) = left {
        read_item(alloc, context, node, &mut draft)?;
        left = rest;
    }
    Ok(draft)
}

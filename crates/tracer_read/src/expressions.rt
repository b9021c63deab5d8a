//! Reads expressions.

ghost use Rattle.std.specs.Prelude.{◌≡◌, ◌<◌, ◌≤◌, [], length, map, position, IfOk, IfSome};
ghost use Rattle.std.specs.Str.{bytes_eq};
ghost use Rattle.sl_base.specs.Refusals.{Gives};
ghost use Rattle.tracer_lang.specs.Tree.{expression_of, arguments_of, no_arguments, program_counter};
ghost use Rattle.tracer_read.specs.Fronts.{arguments_before};
ghost use Rattle.tracer_text.specs.Nodes.{tree_of, trees_of};
ghost use Rattle.tracer_read.specs.Heads.{expression_head};
ghost use Rattle.tracer_read.specs.Parts.{one, two, no_part, spelling};
ghost use Rattle.tracer_read.specs.Expressions.{head, value, all, called, expression_form, expression, expressions};
ghost use Rattle.tracer_read.specs.Views.{around};

use crate::context::{Context, Signature};
use crate::heads::{ExpressionHead, expression_head};
use crate::numbers::is_number;
use crate::parts::{
    have_as_many, name_index, number_of, number_within, only_part, refusal, spelling, symbol_of,
    word_of,
};
use sl_base::{Memory, Refused};
use std::alloc::Global;
use tracer_lang::{Args, Expr};
use tracer_text::{Node, Nodes, ScriptCause, ScriptFault, Token};

/// What a list is whose first part this is.
fn head_of(text: &[u8], first: &Node) -> Option<ExpressionHead>
    ensures { result ≡ head expression_head text.now (tree_of first.now) }
{
    match first {
        Node::Atom(token) => expression_head(spelling(text, *token)),
        Node::List(_, _) => None,
    }
}

/// A number or a local.
fn read_value(
    context: &Context<'_>,
    locals: &[Token],
    token: Token,
) -> Result<Expr, Refused<ScriptFault>>
    requires { length locals.now ≤ 16 }
    ensures { Gives expression_of result (value (around context.now) locals.now token) }
{
    if is_number(spelling(context.text, token)) {
        let number = number_of(context.text, &Node::Atom(token))?;
        return Ok(Expr::Number(number));
    }
    match name_index(context.text, locals, token) {
        Some(index) => Ok(Expr::Local(index as u32)),
        None => Err(refusal(token.place, ScriptCause::NameUnknown)),
    }
}

/// The place of the first function of a name.
fn callee_place(context: &Context<'_>, name: &[u8]) -> Option<usize>
    ensures value { result ≡ position
        (λ f. bytes_eq (spelling context.now.text.now f.name) name.now)
        context.now.functions.now }
    ensures within { IfSome result (λ index. index < length context.now.functions.now) }
{
    context
        .functions
        .iter()
        .position(|function| spelling(context.text, function.name) == name)
}

/// The number of the function that is called, from the parts of the call.
fn called(context: &Context<'_>, place: u32, parts: &Nodes) -> Result<u32, Refused<ScriptFault>>
    ensures { Gives (λ n. n) result (called (around context.now) place (trees_of parts.now)) }
{
    let Nodes::And(name, arguments) = parts else {
        return Err(refusal(place, ScriptCause::Arity));
    };
    let token = word_of(context.text, name)?;
    let Some(index) = callee_place(context, spelling(context.text, token)) else {
        return Err(refusal(token.place, ScriptCause::NameUnknown));
    };
    if !have_as_many(arguments, context.functions[index].parameters) {
        return Err(refusal(place, ScriptCause::Arity));
    }
    Ok(index as u32)
}

/// `(reg N)`, from its parts.
fn read_register(
    context: &Context<'_>,
    place: u32,
    parts: &Nodes,
) -> Result<Expr, Refused<ScriptFault>>
    ensures { Gives expression_of result
        (expression_form (around context.now) place (trees_of parts.now) []
        (Some ExpressionHead.Reg)) }
{
    let node = only_part(place, parts)?;
    let index = number_within(0, 31, context.text, node)?;
    Ok(Expr::Register(index))
}

/// `(sym X)`, from its parts.
fn read_symbol(
    context: &Context<'_>,
    place: u32,
    parts: &Nodes,
) -> Result<Expr, Refused<ScriptFault>>
    ensures { Gives expression_of result
        (expression_form (around context.now) place (trees_of parts.now) []
        (Some ExpressionHead.Sym)) }
{
    let node = only_part(place, parts)?;
    let number = symbol_of(context.text, context.symbols, node)?;
    Ok(Expr::Number(number))
}

/// `(pc)`, from its parts.
fn read_pc(place: u32, parts: &Nodes) -> Result<Expr, Refused<ScriptFault>>
    ensures { Gives expression_of result (no_part place (trees_of parts.now) program_counter) }
{
    match parts {
        Nodes::End => Ok(Expr::Pc),
        Nodes::And(_, _) => Err(refusal(place, ScriptCause::Arity)),
    }
}

/// The arguments of a call, made of the last ones first.
fn chained(alloc: Global, mut read: Vec<Expr>) -> Result<Args, Memory>
    ensures { IfOk result (λ args.
        arguments_of args ≡ arguments_before (map expression_of read.items) no_arguments) }
{
    let mut args = Args::End;
    while let Some(last) = read.pop() {
        args = Args::And(Box::new(alloc, last)?, Box::new(alloc, args)?);
    }
    Ok(args)
}

/// Reads all parts in order.
#[cycle(read_expr)]
fn read_all(
    alloc: Global,
    context: &Context<'_>,
    locals: &[Token],
    parts: &Nodes,
) -> Result<Args, Refused<ScriptFault>>
    requires { length locals.now ≤ 16 }
    ensures { Gives arguments_of result
        (all (expressions (around context.now) locals.now (trees_of parts.now))) }
{
    let mut read = Vec::new(alloc);
    let mut left = parts;
    while let Nodes::And(part, rest) = left {
        read.push(read_expr(alloc, context, locals, part)?)?;
        left = rest;
    }
    Ok(chained(alloc, read)?)
}

/// Reads the only part.
#[cycle(read_expr)]
pub fn read_one(
    alloc: Global,
    context: &Context<'_>,
    locals: &[Token],
    place: u32,
    parts: &Nodes,
) -> Result<Expr, Refused<ScriptFault>>
    requires { length locals.now ≤ 16 }
    ensures { Gives expression_of result
        (one place (expressions (around context.now) locals.now (trees_of parts.now))) }
{
    if let Nodes::And(part, rest) = parts
        && let Nodes::End = **rest
    {
        return read_expr(alloc, context, locals, part);
    }
    Err(refusal(place, ScriptCause::Arity))
}

/// Reads the only two parts, in order.
#[cycle(read_expr)]
pub fn read_two(
    alloc: Global,
    context: &Context<'_>,
    locals: &[Token],
    place: u32,
    parts: &Nodes,
) -> Result<(Expr, Expr), Refused<ScriptFault>>
    requires { length locals.now ≤ 16 }
    ensures { Gives (λ pair. (expression_of pair.0, expression_of pair.1)) result
        (two place (expressions (around context.now) locals.now (trees_of parts.now))) }
{
    if let Nodes::And(first, rest) = parts
        && let Nodes::And(second, rest) = &**rest
        && let Nodes::End = **rest
    {
        let first = read_expr(alloc, context, locals, first)?;
        let second = read_expr(alloc, context, locals, second)?;
        return Ok((first, second));
    }
    Err(refusal(place, ScriptCause::Arity))
}

/// `(call F E E)`, from its parts.
#[cycle(read_expr)]
fn read_call(
    alloc: Global,
    context: &Context<'_>,
    locals: &[Token],
    place: u32,
    parts: &Nodes,
) -> Result<Expr, Refused<ScriptFault>>
    requires { length locals.now ≤ 16 }
    ensures { Gives expression_of result
        (expression_form (around context.now) place (trees_of parts.now)
        (expressions (around context.now) locals.now (trees_of parts.now))
        (Some ExpressionHead.Call)) }
{
    let index = called(context, place, parts)?;
    let arguments = match parts {
        Nodes::End => Args::End,
        Nodes::And(_, arguments) => read_all(alloc, context, locals, arguments)?,
    };
    Ok(Expr::Call(index, arguments))
}

/// A list with a head of an expression, from the parts behind it.
#[cycle(read_expr)]
fn read_form(
    alloc: Global,
    context: &Context<'_>,
    locals: &[Token],
    place: u32,
    head: ExpressionHead,
    parts: &Nodes,
) -> Result<Expr, Refused<ScriptFault>>
    requires { length locals.now ≤ 16 }
    ensures { Gives expression_of result
        (expression_form (around context.now) place (trees_of parts.now)
        (expressions (around context.now) locals.now (trees_of parts.now)) (Some head)) }
{
    match head {
        ExpressionHead::Pc => read_pc(place, parts),
        ExpressionHead::Reg => read_register(context, place, parts),
        ExpressionHead::Sym => read_symbol(context, place, parts),
        ExpressionHead::Call => read_call(alloc, context, locals, place, parts),
        ExpressionHead::Not => {
            let of = read_one(alloc, context, locals, place, parts)?;
            Ok(Expr::IsZero(Box::new(alloc, of)?))
        }
        ExpressionHead::Load(op) => {
            let address = read_one(alloc, context, locals, place, parts)?;
            Ok(Expr::Load(op, Box::new(alloc, address)?))
        }
        ExpressionHead::Operation(op) => {
            let (first, second) = read_two(alloc, context, locals, place, parts)?;
            let first = Box::new(alloc, first)?;
            Ok(Expr::Operation(op, first, Box::new(alloc, second)?))
        }
        ExpressionHead::Sys => {
            let (number, argument) = read_two(alloc, context, locals, place, parts)?;
            let number = Box::new(alloc, number)?;
            Ok(Expr::Sys(number, Box::new(alloc, argument)?))
        }
    }
}

/// Reads an expression of a body with these locals.
#[cycle(read_expr)]
pub fn read_expr(
    alloc: Global,
    context: &Context<'_>,
    locals: &[Token],
    node: &Node,
) -> Result<Expr, Refused<ScriptFault>>
    requires { length locals.now ≤ 16 }
    ensures { Gives expression_of result
        (expression (around context.now) locals.now (tree_of node.now)) }
{
    let (place, parts) = match node {
        Node::Atom(token) => return read_value(context, locals, *token),
        Node::List(place, parts) => (*place, parts),
    };
    if let Nodes::And(first, rest) = &**parts
        && let Some(head) = head_of(context.text, first)
    {
        return read_form(alloc, context, locals, place, head, rest);
    }
    Err(refusal(place, ScriptCause::Form))
}

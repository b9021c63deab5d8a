//! Reads statements.

ghost use Rattle.std.specs.Prelude.{◌≡◌, ◌≤◌, length, map, IfOk, OnOk, Some};
ghost use Rattle.sl_base.specs.Refusals.{Gives};
ghost use Rattle.tracer_lang.specs.Tree.{expression_of, statement_of, statements_of, no_statements};
ghost use Rattle.tracer_read.specs.Fronts.{statements_before};
ghost use Rattle.tracer_text.specs.Nodes.{tree_of, trees_of};
ghost use Rattle.tracer_read.specs.Heads.{statement_head};
ghost use Rattle.tracer_read.specs.Expressions.{head, expressions};
ghost use Rattle.tracer_read.specs.Statements.{in_order, var_form, set_form, if_form, while_form, value_statement, statement_form, step_of, steps_of};
ghost use Rattle.tracer_read.specs.Views.{around};

use crate::context::Context;
use crate::expressions::{read_expr, read_one, read_two};
use crate::heads::{StatementHead, ValueHead, statement_head};
use crate::parts::{name_index, new_local, refusal, spelling, two_parts, word_of};
use sl_base::{Memory, Refused};
use std::alloc::Global;
use tracer_lang::{Block, Expr, Stmt};
use tracer_text::{Node, Nodes, ScriptCause, ScriptFault, Token};

/// What a list is whose first part this is.
fn head_of(text: &[u8], first: &Node) -> Option<StatementHead>
    ensures { result ≡ head statement_head text.now (tree_of first.now) }
{
    match first {
        Node::Atom(token) => statement_head(spelling(text, *token)),
        Node::List(_, _) => None,
    }
}

/// `(var X E)`, from its parts.
fn read_var(
    alloc: Global,
    context: &Context<'_>,
    locals: &mut Vec<Token>,
    place: u32,
    parts: &Nodes,
) -> Result<Stmt, Refused<ScriptFault>>
    requires { length locals.old.items ≤ 16 }
    ensures value { Gives (λ s. (statement_of s, locals.new.items)) result
        (var_form (around context.now) place (trees_of parts.now) locals.old.items) }
    ensures few { OnOk result (length locals.new.items ≤ 16) }
{
    let (name, value) = two_parts(place, parts)?;
    let name = word_of(context.text, name)?;
    let index = locals.len() as u32;
    new_local(context.text, locals, name)?;
    let value = read_expr(alloc, context, locals, value)?;
    Ok(Stmt::Set(index, value))
}

/// `(set X E)`, from its parts.
fn read_set(
    alloc: Global,
    context: &Context<'_>,
    locals: &[Token],
    place: u32,
    parts: &Nodes,
) -> Result<Stmt, Refused<ScriptFault>>
    requires { length locals.now ≤ 16 }
    ensures { Gives (λ s. (statement_of s, locals.now)) result
        (set_form (around context.now) place (trees_of parts.now) locals.now) }
{
    let (name, value) = two_parts(place, parts)?;
    let name = word_of(context.text, name)?;
    let Some(index) = name_index(context.text, locals, name) else {
        return Err(refusal(name.place, ScriptCause::NameUnknown));
    };
    let value = read_expr(alloc, context, locals, value)?;
    Ok(Stmt::Set(index as u32, value))
}

/// Statements as a list, made of the last ones first.
fn chained(alloc: Global, mut read: Vec<Stmt>) -> Result<Block, Memory>
    ensures { IfOk result (λ block.
        statements_of block ≡ statements_before (map statement_of read.items) no_statements) }
{
    let mut block = Block::End;
    while let Some(last) = read.pop() {
        block = Block::And(Box::new(alloc, last)?, Box::new(alloc, block)?);
    }
    Ok(block)
}

/// Reads statements in order.
#[cycle(read_stmt)]
pub fn read_block(
    alloc: Global,
    context: &Context<'_>,
    locals: &mut Vec<Token>,
    nodes: &Nodes,
) -> Result<Block, Refused<ScriptFault>>
    requires { length locals.old.items ≤ 16 }
    ensures value { Gives (λ b. (statements_of b, locals.new.items)) result
        (in_order (steps_of (around context.now) (trees_of nodes.now)) locals.old.items) }
    ensures few { OnOk result (length locals.new.items ≤ 16) }
{
    let mut read = Vec::new(alloc);
    let mut left = nodes;
    while let Nodes::And(node, rest) = left {
        read.push(read_stmt(alloc, context, locals, node)?)?;
        left = rest;
    }
    Ok(chained(alloc, read)?)
}

/// `(if E S S)`, from its parts.
#[cycle(read_stmt)]
fn read_if(
    alloc: Global,
    context: &Context<'_>,
    locals: &mut Vec<Token>,
    place: u32,
    parts: &Nodes,
) -> Result<Stmt, Refused<ScriptFault>>
    requires { length locals.old.items ≤ 16 }
    ensures value { Gives (λ s. (statement_of s, locals.new.items)) result
        (if_form place (expressions (around context.now) locals.old.items (trees_of parts.now))
        (steps_of (around context.now) (trees_of parts.now)) locals.old.items) }
    ensures few { OnOk result (length locals.new.items ≤ 16) }
{
    if let Nodes::And(condition, rest) = parts
        && let Nodes::And(first, rest) = &**rest
        && let Nodes::And(second, rest) = &**rest
        && let Nodes::End = **rest
    {
        let condition = read_expr(alloc, context, locals, condition)?;
        let first = read_stmt(alloc, context, locals, first)?;
        let second = read_stmt(alloc, context, locals, second)?;
        let first = Box::new(alloc, first)?;
        return Ok(Stmt::If(condition, first, Box::new(alloc, second)?));
    }
    Err(refusal(place, ScriptCause::Arity))
}

/// `(while E S S)`, from its parts.
#[cycle(read_stmt)]
fn read_while(
    alloc: Global,
    context: &Context<'_>,
    locals: &mut Vec<Token>,
    place: u32,
    parts: &Nodes,
) -> Result<Stmt, Refused<ScriptFault>>
    requires { length locals.old.items ≤ 16 }
    ensures value { Gives (λ s. (statement_of s, locals.new.items)) result
        (while_form place (expressions (around context.now) locals.old.items (trees_of parts.now))
        (steps_of (around context.now) (trees_of parts.now)) locals.old.items) }
    ensures few { OnOk result (length locals.new.items ≤ 16) }
{
    let Nodes::And(condition, body) = parts else {
        return Err(refusal(place, ScriptCause::Arity));
    };
    let condition = read_expr(alloc, context, locals, condition)?;
    let body = read_block(alloc, context, locals, body)?;
    Ok(Stmt::While(condition, body))
}

/// A statement of one value.
fn value_statement(head: ValueHead, value: Expr) -> Stmt
    ensures { statement_of result ≡ value_statement head (expression_of value) }
{
    match head {
        ValueHead::Emit => Stmt::Emit(value),
        ValueHead::Return => Stmt::Return(value),
        ValueHead::Stop => Stmt::Stop(value),
        ValueHead::Run => Stmt::Run(value),
    }
}

/// A list with a head of a statement, from the parts behind it.
#[cycle(read_stmt)]
fn read_form(
    alloc: Global,
    context: &Context<'_>,
    locals: &mut Vec<Token>,
    place: u32,
    head: StatementHead,
    parts: &Nodes,
) -> Result<Stmt, Refused<ScriptFault>>
    requires { length locals.old.items ≤ 16 }
    ensures value { Gives (λ s. (statement_of s, locals.new.items)) result
        (statement_form (around context.now) place (trees_of parts.now)
        (steps_of (around context.now) (trees_of parts.now)) locals.old.items (Some head)) }
    ensures few { OnOk result (length locals.new.items ≤ 16) }
{
    match head {
        StatementHead::Var => read_var(alloc, context, locals, place, parts),
        StatementHead::Set => read_set(alloc, context, locals, place, parts),
        StatementHead::If => read_if(alloc, context, locals, place, parts),
        StatementHead::While => read_while(alloc, context, locals, place, parts),
        StatementHead::Do => {
            let body = read_block(alloc, context, locals, parts)?;
            Ok(Stmt::Do(body))
        }
        StatementHead::Store(op) => {
            let (address, value) = read_two(alloc, context, locals, place, parts)?;
            Ok(Stmt::Store(op, address, value))
        }
        StatementHead::Value(head) => {
            let value = read_one(alloc, context, locals, place, parts)?;
            Ok(value_statement(head, value))
        }
    }
}

/// Reads a statement behind these locals.
#[cycle(read_stmt)]
fn read_stmt(
    alloc: Global,
    context: &Context<'_>,
    locals: &mut Vec<Token>,
    node: &Node,
) -> Result<Stmt, Refused<ScriptFault>>
    requires { length locals.old.items ≤ 16 }
    ensures value { Gives (λ s. (statement_of s, locals.new.items)) result
        (step_of (around context.now) (tree_of node.now) locals.old.items) }
    ensures few { OnOk result (length locals.new.items ≤ 16) }
{
    let (place, parts) = match node {
        Node::Atom(token) => return Err(refusal(token.place, ScriptCause::Form)),
        Node::List(place, parts) => (*place, parts),
    };
    if let Nodes::And(first, rest) = &**parts
        && let Some(head) = head_of(context.text, first)
    {
        return read_form(alloc, context, locals, place, head, rest);
    }
    Err(refusal(place, ScriptCause::Form))
}

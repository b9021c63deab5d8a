//! Nodes: tokens, and lists of nodes in parentheses.

ghost use Rattle.std.specs.Prelude.{◌≡◌, length, IfOk, All};
ghost use Rattle.tracer_text.specs.Tokens.{IsWithin};
ghost use Rattle.tracer_text.specs.Nodes.{trees_of, nodes_from};

use crate::token::Token;
use sl_base::Memory;
use std::alloc::Global;

/// A token or a list.
#[cycle(nodes)]
#[derive(Drop)]
pub enum Node {
    /// A name or a number.
    Atom(Token),
    /// The nodes between two parentheses, with the offset of the first one.
    List(u32, Box<Nodes>),
}

/// Nodes in order.
#[cycle(nodes)]
pub enum Nodes {
    /// No more.
    End,
    /// A node, and those after it.
    And(Box<Node>, Box<Nodes>),
}

/// A list may have as many nodes as a script, so it goes piece by piece and not by recursion. What
/// stands in its nodes goes by recursion, by at most as many levels as lists may be open.
impl Drop for Nodes {
    #[cycle(nodes)]
    fn drop(mut self) {
        loop {
            match self {
                Nodes::End => return,
                Nodes::And(_, rest) => self = Box::into_inner(rest),
            }
        }
    }
}

/// The nodes of tokens whose parentheses have partners. They are made from the last token on: a
/// closing parenthesis begins the inside of a list, and its partner ends it.
pub fn nodes_of(alloc: Global, text: &[u8], tokens: &[Token]) -> Result<Nodes, Memory>
    requires { All (IsWithin (length text.now)) tokens.now }
    ensures { IfOk result (λ nodes. trees_of nodes ≡ (nodes_from text.now tokens.now).inside) }
{
    let mut outside: Vec<Nodes> = Vec::new(alloc);
    let mut inside = Nodes::End;
    let mut at = tokens.len();
    while at > 0 {
        at -= 1;
        let token = tokens[at];
        match text[token.place as usize] {
            b')' => {
                outside.push(inside)?;
                inside = Nodes::End;
            }
            b'(' => {
                let list = Node::List(token.place, Box::new(alloc, inside)?);
                let after = match outside.pop() {
                    Some(after) => after,
                    None => Nodes::End,
                };
                inside = Nodes::And(Box::new(alloc, list)?, Box::new(alloc, after)?);
            }
            _ => {
                let atom = Box::new(alloc, Node::Atom(token))?;
                inside = Nodes::And(atom, Box::new(alloc, inside)?);
            }
        }
    }
    Ok(inside)
}

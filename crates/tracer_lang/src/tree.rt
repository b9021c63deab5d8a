//! Scripts as trees: locals and functions are numbers, symbols are their values, and operators are
//! operations of the machine.

use sl_model::{BranchOp, LoadOp, MulDivOp, RegisterOp, StoreOp};

/// What is made of two words.
#[derive(Clone, Copy, Debug, PartialEq, Eq)]
pub enum Operator {
    /// What the machine makes of two registers.
    Register(RegisterOp),
    /// The same, of the "M" extension.
    MulDiv(MulDivOp),
    /// 1 where the machine branches on the two words, else 0.
    Branch(BranchOp),
    /// 1 where it branches on the second word and the first, else 0.
    Exchanged(BranchOp),
}

/// What gives a word.
#[cycle(expressions)]
#[derive(Drop)]
pub enum Expr {
    /// A number, or the value of a symbol.
    Number(u32),
    /// The local of this number in its body, from 0. The parameters come first.
    Local(u32),
    /// The register of this number, 0 to 31, at the tracepoint.
    Register(u32),
    /// The program counter at the tracepoint.
    Pc,
    /// What memory holds at an address.
    Load(LoadOp, Box<Expr>),
    /// What an operation makes of two values.
    Operation(Operator, Box<Expr>, Box<Expr>),
    /// 1 where the value is 0, else 0.
    IsZero(Box<Expr>),
    /// What the function of this number gives for the arguments.
    Call(u32, Args),
    /// What the system call of a number gives for an argument.
    Sys(Box<Expr>, Box<Expr>),
}

/// The arguments of a call, in order.
#[cycle(expressions)]
pub enum Args {
    /// No more.
    End,
    /// One, and those after it.
    And(Box<Expr>, Box<Args>),
}

/// A list may be as long as a script has nodes, so it goes piece by piece and not by recursion.
impl Drop for Args {
    #[cycle(expressions)]
    fn drop(mut self) {
        loop {
            match self {
                Args::End => return,
                Args::And(_, rest) => self = Box::into_inner(rest),
            }
        }
    }
}

/// What is done.
#[cycle(statements)]
#[derive(Drop)]
pub enum Stmt {
    /// Emits a value.
    Emit(Expr),
    /// The local of this number becomes a value.
    Set(u32, Expr),
    /// Statements in order.
    Do(Block),
    /// The first statement where a value is not 0, else the second.
    If(Expr, Box<Stmt>, Box<Stmt>),
    /// Statements as long as a value is not 0.
    While(Expr, Block),
    /// Memory at an address becomes a value.
    Store(StoreOp, Expr, Expr),
    /// Ends the function with a value, or the tracer.
    Return(Expr),
    /// Ends the tracer with a value of its own.
    Stop(Expr),
    /// Evaluates, and drops the value.
    Run(Expr),
}

/// Statements in order.
#[cycle(statements)]
pub enum Block {
    /// No more.
    End,
    /// One, and those after it.
    And(Box<Stmt>, Box<Block>),
}

/// Piece by piece, as the arguments of a call.
impl Drop for Block {
    #[cycle(statements)]
    fn drop(mut self) {
        loop {
            match self {
                Block::End => return,
                Block::And(_, rest) => self = Box::into_inner(rest),
            }
        }
    }
}

/// A function of a script.
#[derive(Drop)]
pub struct Function {
    /// How many of its locals are parameters.
    pub parameters: u32,
    /// How many locals it has, at most 16.
    pub locals: u32,
    /// What it does.
    pub body: Block,
}

/// Where a tracer fires.
#[derive(Clone, Copy, Debug, PartialEq, Eq)]
pub enum Point {
    /// Where pc is this address.
    Addr(u32),
    /// Where pc is the value of a symbol.
    Enter(u32),
    /// Before an instruction that stores into a range of memory.
    Store {
        /// The address of the range's first byte.
        address: u32,
        /// How many bytes it has, at least 1. It ends at 2^32 or below.
        len: u32,
    },
}

/// A tracer, and where it fires.
#[derive(Drop)]
pub struct Tracepoint {
    /// Where it fires.
    pub point: Point,
    /// How many locals its body has, at most 16.
    pub locals: u32,
    /// What it does.
    pub body: Block,
}

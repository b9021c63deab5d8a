//! The words that begin lists.

ghost use Rattle.std.specs.Prelude.{◌≡◌};
ghost use Rattle.std.specs.Str.{bytes_eq};
ghost use Rattle.tracer_read.specs.Heads.{named, register_names, mul_div_names, branch_names, exchanged_names, operator_of, load_names, value_names, expression_head, store_names, value_statement_names, step_names, statement_head, item_names, point_names};

use sl_model::{BranchOp, LoadOp, MulDivOp, RegisterOp, StoreOp};
use tracer_lang::Operator;

/// What a list at an expression's place is.
#[derive(Clone, Copy, Debug, PartialEq, Eq)]
pub enum ExpressionHead {
    Sym,
    Reg,
    Pc,
    Not,
    Call,
    Sys,
    Load(LoadOp),
    Operation(Operator),
}

/// What a statement does with the one value that it has.
#[derive(Clone, Copy, Debug, PartialEq, Eq)]
pub enum ValueHead {
    Emit,
    Return,
    Stop,
    Run,
}

/// What a list at a statement's place is.
#[derive(Clone, Copy, Debug, PartialEq, Eq)]
pub enum StatementHead {
    Var,
    Set,
    Do,
    If,
    While,
    Store(StoreOp),
    Value(ValueHead),
}

/// What a list at the top level is.
#[derive(Clone, Copy, Debug, PartialEq, Eq)]
pub enum ItemHead {
    Budget,
    Def,
    At,
}

/// What a tracepoint's list is.
#[derive(Clone, Copy, Debug, PartialEq, Eq)]
pub enum PointHead {
    Addr,
    Enter,
    Store,
}

/// Whether a word is this one.
fn is(word: &[u8], name: &str) -> bool
    ensures { result ≡ bytes_eq name.now word.now }
{
    name.as_bytes() == word
}

fn register_op(word: &[u8]) -> Option<RegisterOp>
    ensures { result ≡ named word.now register_names }
{
    if is(word, "+") {
        Some(RegisterOp::Add)
    } else if is(word, "-") {
        Some(RegisterOp::Sub)
    } else if is(word, "&") {
        Some(RegisterOp::And)
    } else if is(word, "|") {
        Some(RegisterOp::Or)
    } else if is(word, "^") {
        Some(RegisterOp::Xor)
    } else if is(word, "<<") {
        Some(RegisterOp::Sll)
    } else if is(word, ">>") {
        Some(RegisterOp::Sra)
    } else if is(word, ">>u") {
        Some(RegisterOp::Srl)
    } else if is(word, "<") {
        Some(RegisterOp::Slt)
    } else if is(word, "<u") {
        Some(RegisterOp::Sltu)
    } else {
        None
    }
}

fn mul_div_op(word: &[u8]) -> Option<MulDivOp>
    ensures { result ≡ named word.now mul_div_names }
{
    if is(word, "*") {
        Some(MulDivOp::Mul)
    } else if is(word, "/") {
        Some(MulDivOp::Div)
    } else if is(word, "%") {
        Some(MulDivOp::Rem)
    } else if is(word, "/u") {
        Some(MulDivOp::Divu)
    } else if is(word, "%u") {
        Some(MulDivOp::Remu)
    } else {
        None
    }
}

fn branch_op(word: &[u8]) -> Option<BranchOp>
    ensures { result ≡ named word.now branch_names }
{
    if is(word, "=") {
        Some(BranchOp::Beq)
    } else if is(word, "!=") {
        Some(BranchOp::Bne)
    } else {
        None
    }
}

fn exchanged_op(word: &[u8]) -> Option<BranchOp>
    ensures { result ≡ named word.now exchanged_names }
{
    if is(word, "<=") {
        Some(BranchOp::Bge)
    } else if is(word, "<=u") {
        Some(BranchOp::Bgeu)
    } else {
        None
    }
}

/// The operator of this name.
fn operator_of(word: &[u8]) -> Option<Operator>
    ensures { result ≡ operator_of word.now }
{
    if let Some(op) = register_op(word) {
        return Some(Operator::Register(op));
    }
    if let Some(op) = mul_div_op(word) {
        return Some(Operator::MulDiv(op));
    }
    if let Some(op) = branch_op(word) {
        return Some(Operator::Branch(op));
    }
    match exchanged_op(word) {
        Some(op) => Some(Operator::Exchanged(op)),
        None => None,
    }
}

fn load_op(word: &[u8]) -> Option<LoadOp>
    ensures { result ≡ named word.now load_names }
{
    if is(word, "load1") {
        Some(LoadOp::Lbu)
    } else if is(word, "load2") {
        Some(LoadOp::Lhu)
    } else if is(word, "load4") {
        Some(LoadOp::Lw)
    } else if is(word, "load1s") {
        Some(LoadOp::Lb)
    } else if is(word, "load2s") {
        Some(LoadOp::Lh)
    } else {
        None
    }
}

fn value_head(word: &[u8]) -> Option<ExpressionHead>
    ensures { result ≡ named word.now value_names }
{
    if is(word, "sym") {
        Some(ExpressionHead::Sym)
    } else if is(word, "reg") {
        Some(ExpressionHead::Reg)
    } else if is(word, "pc") {
        Some(ExpressionHead::Pc)
    } else if is(word, "not") {
        Some(ExpressionHead::Not)
    } else if is(word, "call") {
        Some(ExpressionHead::Call)
    } else if is(word, "sys") {
        Some(ExpressionHead::Sys)
    } else {
        None
    }
}

/// What an expression is whose list begins with a word.
pub fn expression_head(word: &[u8]) -> Option<ExpressionHead>
    ensures { result ≡ expression_head word.now }
{
    if let Some(head) = value_head(word) {
        return Some(head);
    }
    if let Some(op) = load_op(word) {
        return Some(ExpressionHead::Load(op));
    }
    match operator_of(word) {
        Some(op) => Some(ExpressionHead::Operation(op)),
        None => None,
    }
}

fn store_op(word: &[u8]) -> Option<StoreOp>
    ensures { result ≡ named word.now store_names }
{
    if is(word, "store1") {
        Some(StoreOp::Sb)
    } else if is(word, "store2") {
        Some(StoreOp::Sh)
    } else if is(word, "store4") {
        Some(StoreOp::Sw)
    } else {
        None
    }
}

fn value_statement(word: &[u8]) -> Option<ValueHead>
    ensures { result ≡ named word.now value_statement_names }
{
    if is(word, "emit") {
        Some(ValueHead::Emit)
    } else if is(word, "return") {
        Some(ValueHead::Return)
    } else if is(word, "stop") {
        Some(ValueHead::Stop)
    } else if is(word, "run") {
        Some(ValueHead::Run)
    } else {
        None
    }
}

fn step_head(word: &[u8]) -> Option<StatementHead>
    ensures { result ≡ named word.now step_names }
{
    if is(word, "var") {
        Some(StatementHead::Var)
    } else if is(word, "set") {
        Some(StatementHead::Set)
    } else if is(word, "do") {
        Some(StatementHead::Do)
    } else if is(word, "if") {
        Some(StatementHead::If)
    } else if is(word, "while") {
        Some(StatementHead::While)
    } else {
        None
    }
}

/// What a statement is whose list begins with a word.
pub fn statement_head(word: &[u8]) -> Option<StatementHead>
    ensures { result ≡ statement_head word.now }
{
    if let Some(head) = value_statement(word) {
        return Some(StatementHead::Value(head));
    }
    if let Some(op) = store_op(word) {
        return Some(StatementHead::Store(op));
    }
    step_head(word)
}

/// What a list of the top level is that begins with a word.
pub fn item_head(word: &[u8]) -> Option<ItemHead>
    ensures { result ≡ named word.now item_names }
{
    if is(word, "budget") {
        Some(ItemHead::Budget)
    } else if is(word, "def") {
        Some(ItemHead::Def)
    } else if is(word, "at") {
        Some(ItemHead::At)
    } else {
        None
    }
}

/// What a tracepoint is whose list begins with a word.
pub fn point_head(word: &[u8]) -> Option<PointHead>
    ensures { result ≡ named word.now point_names }
{
    if is(word, "addr") {
        Some(PointHead::Addr)
    } else if is(word, "enter") {
        Some(PointHead::Enter)
    } else if is(word, "store") {
        Some(PointHead::Store)
    } else {
        None
    }
}

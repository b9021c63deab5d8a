//! Tracers on copies of a machine in memory, with records that were worked by hand.

ghost use Rattle.std.specs.Prelude.{◌≡◌, ◌≤◌, ◌∷◌, [], length, IfOk};
ghost use Rattle.tracer_lang.specs.Tree.{number, local, load, operation, call, no_arguments, expression_of, emit, set, while, return, statement_of, statements_of, statement, no_statements};
ghost use Rattle.tracer_lang.specs.Limits.{statements_nodes, statements_depth, FitsStatements};

use crate::{copy_of, run_on_copy};
use page_frames::Frames;
use rv_machine::Machine;
use sl_base::{Memory, Seq};
use sl_model::{BranchOp, Bus, Layout, LoadOp, RegisterOp, RunState, StoreOp};
use std::alloc::{AllocError, Global};
use std::process::Abort;
use std::test::Fail;
use tracer_lang::{
    Args, Block, Expr, Function, Operator, Point, Record, Script, Stmt, Tracepoint, TracerEnd,
};

/// The page at 0x11000, in which 8 stands at 0x11004.
fn frames(alloc: Global) -> Result<Frames, Memory> {
    let mut frames = Frames::new(alloc)?;
    frames.map_page(0x11)?;
    frames.store(0x11004, 4, 8);
    Ok(frames)
}

/// A machine at 0x10014 over that page.
fn machine() -> Machine {
    let mut x = [0; 32];
    x[10] = 0x12345;
    Machine {
        pc: 0x10014,
        x,
        brk: 0x12000,
        brk_end: 0x12000,
        next_call: 0,
        status: RunState::Running,
        count: 5,
        layout: Layout {
            brk_start: 0x11000,
            heap_limit: 0x13000,
        },
    }
}

/// What an operator makes of two expressions.
fn made(alloc: Global, operator: Operator, a: Expr, b: Expr) -> Result<Expr, AllocError>
    ensures { IfOk result
        (λ e. expression_of e ≡ operation operator (expression_of a) (expression_of b)) }
{
    Ok(Expr::Operation(operator, Box::new(alloc, a)?, Box::new(alloc, b)?))
}

/// One statement.
fn only(alloc: Global, first: Stmt) -> Result<Block, AllocError>
    ensures { IfOk result
        (λ all. statements_of all ≡ statement (statement_of first) no_statements) }
{
    before(alloc, first, Block::End)
}

/// A statement before others.
fn before(alloc: Global, first: Stmt, rest: Block) -> Result<Block, AllocError>
    ensures { IfOk result
        (λ all. statements_of all ≡ statement (statement_of first) (statements_of rest)) }
{
    Ok(Block::And(Box::new(alloc, first)?, Box::new(alloc, rest)?))
}

/// What a load gives.
fn loaded(alloc: Global, op: LoadOp, address: u32) -> Result<Expr, AllocError>
    ensures { IfOk result (λ e. expression_of e ≡ load op (number address)) }
{
    Ok(Expr::Load(op, Box::new(alloc, Expr::Number(address))?))
}

/// A function that emits 1 and calls itself.
fn calls_itself(alloc: Global) -> Result<Block, AllocError>
    ensures { IfOk result (λ all. statements_of all
        ≡ statement (emit (number 1)) (statement (return (call 0 no_arguments)) no_statements)) }
{
    let again = only(alloc, Stmt::Return(Expr::Call(0, Args::End)))?;
    before(alloc, Stmt::Emit(Expr::Number(1)), again)
}

/// A script with that function, and one tracer with one local.
fn script_of(alloc: Global, budget: u32, body: Block) -> Result<Script, AllocError>
    requires least_budget { 1 ≤ budget }
    requires most_budget { budget ≤ 1000000 }
    requires nodes { statements_nodes (statements_of body) ≤ 4000 }
    requires depth { statements_depth (statements_of body) ≤ 63 }
    requires fits { FitsStatements (0 ∷ []) 1 (statements_of body) }
    ensures { IfOk result (λ script. length script.tracepoints ≡ 1) }
{
    let mut functions = Seq::new(alloc);
    functions.push(Function {
        parameters: 0,
        locals: 0,
        body: calls_itself(alloc)?,
    })?;
    let mut tracepoints = Seq::new(alloc);
    tracepoints.push(Tracepoint {
        point: Point::Addr(0x10014),
        locals: 1,
        body,
    })?;
    Ok(Script {
        budget,
        functions,
        tracepoints,
    })
}

/// The record of a tracer.
fn left_by(alloc: Global, budget: u32, body: Block) -> Result<Record, Memory>
    requires least_budget { 1 ≤ budget }
    requires most_budget { budget ≤ 1000000 }
    requires nodes { statements_nodes (statements_of body) ≤ 4000 }
    requires depth { statements_depth (statements_of body) ≤ 63 }
    requires fits { FitsStatements (0 ∷ []) 1 (statements_of body) }
{
    let script = script_of(alloc, budget, body)?;
    run_on_copy(alloc, machine(), frames(alloc)?, &script, 0)
}

/// The local is counted up while it is below a number, after a statement.
fn counting(alloc: Global, turns: u32, first: Stmt, last: Stmt) -> Result<Block, AllocError>
    ensures { IfOk result (λ all. statements_of all
        ≡ statement (while (operation (Operator.Branch BranchOp.Bltu) (local 0) (number turns))
        (statement (statement_of first)
        (statement (set 0 (operation (Operator.Register RegisterOp.Add) (local 0) (number 1)))
        no_statements))) (statement (statement_of last) no_statements)) }
{
    let add = Operator::Register(RegisterOp::Add);
    let more = made(alloc, add, Expr::Local(0), Expr::Number(1))?;
    let turn = before(alloc, first, only(alloc, Stmt::Set(0, more))?)?;
    let less = Operator::Branch(BranchOp::Bltu);
    let condition = made(alloc, less, Expr::Local(0), Expr::Number(turns))?;
    before(alloc, Stmt::While(condition, turn), only(alloc, last)?)
}

/// A record has these words and this outcome; `row` tells which it is.
fn expect(rt: &impl Abort, left: &Record, words: &[u32], end: TracerEnd, row: u32) {
    assert!(rt; left.outcome == end, "{row}");
    assert!(rt; left.words.as_slice() == words, "{row}");
}

/// A record has so many words and this outcome; `row` tells which it is.
fn expect_number(rt: &impl Abort, left: &Record, words: usize, end: TracerEnd, row: u32) {
    assert!(rt; left.outcome == end, "{row}");
    assert!(rt; left.words.len() == words, "{row}");
}

/// A copy is the same and has no dirty page.
#[test]
fn copies(rt: HostRuntime) -> Result<(), Fail> {
    let alloc = rt.alloc();
    let (copied, frames) = copy_of(alloc, &machine(), &frames(alloc)?)?;
    assert!(rt; copied == machine());
    assert_eq!(rt; frames.load(0x11004, 4), Some(8));
    assert_eq!(rt; frames.dirty_len(), 0);
    Ok(())
}

/// What a tracer leaves on a copy that emits the program counter and a register.
fn left_on_copy(alloc: Global) -> Result<Record, Memory> {
    let register = only(alloc, Stmt::Emit(Expr::Register(10)))?;
    let script = script_of(alloc, 1, before(alloc, Stmt::Emit(Expr::Pc), register)?)?;
    let (copied, frames) = copy_of(alloc, &machine(), &frames(alloc)?)?;
    run_on_copy(alloc, copied, frames, &script, 0)
}

/// A record tells where it was left.
#[test]
fn leaves_a_record(rt: HostRuntime) -> Result<(), Fail> {
    let left = left_on_copy(rt.alloc())?;
    assert_eq!(rt; left.count, 5);
    assert_eq!(rt; left.point, 0);
    assert_eq!(rt; left.pc, 0x10014);
    expect(&rt, &left, &[0x10014, 0x12345], TracerEnd::Done, 0);
    Ok(())
}

/// What a tracer leaves that emits 1 and a load.
fn left_by_load(alloc: Global, op: LoadOp, address: u32) -> Result<Record, Memory> {
    let body = only(alloc, Stmt::Emit(loaded(alloc, op, address)?))?;
    left_by(alloc, 1, before(alloc, Stmt::Emit(Expr::Number(1)), body)?)
}

/// A load at an address has a value, or faults.
fn expect_load(rt: &impl Abort, left: &Record, address: u32, want: Option<u32>) {
    match want {
        Some(value) => expect(rt, left, &[1, value], TracerEnd::Done, address),
        None => expect(rt, left, &[1], TracerEnd::LoadFault(address), address),
    }
}

/// Emits 1 and a load; a load that faults leaves the first word.
#[test]
fn loads(rt: HostRuntime) -> Result<(), Fail> {
    for (op, address, want) in [
        (LoadOp::Lw, 0x11004, Some(8)),
        (LoadOp::Lw, 0x11ffc, Some(0)),
        (LoadOp::Lbu, 0x11fff, Some(0)),
        (LoadOp::Lw, 0x11ffd, None),
        (LoadOp::Lhu, 0x11fff, None),
        (LoadOp::Lw, 0x10ffe, None),
        (LoadOp::Lw, 0xbfff_fffe, None),
        (LoadOp::Lw, 0xc000_0000, None),
        (LoadOp::Lb, 0xffff_ffff, None),
        (LoadOp::Lw, 0xffff_ffff, None),
    ] {
        let left = left_by_load(rt.alloc(), op, address)?;
        expect_load(&rt, &left, address, want);
    }
    Ok(())
}

/// What a tracer leaves that stores the low bytes of 0xffff1234, and emits the word at 0x11004.
fn left_by_store(alloc: Global, op: StoreOp, address: u32) -> Result<Record, Memory> {
    let body = only(alloc, Stmt::Emit(loaded(alloc, LoadOp::Lw, 0x11004)?))?;
    let store = Stmt::Store(op, Expr::Number(address), Expr::Number(0xffff_1234));
    left_by(alloc, 1, before(alloc, store, body)?)
}

/// After a store at an address the word is this, or the store faults.
fn expect_store(rt: &impl Abort, left: &Record, address: u32, want: Option<u32>) {
    match want {
        Some(value) => expect(rt, left, &[value], TracerEnd::Done, address),
        None => expect(rt, left, &[], TracerEnd::StoreFault(address), address),
    }
}

/// Stores the low bytes of 0xffff1234, and emits the word at 0x11004.
#[test]
fn stores(rt: HostRuntime) -> Result<(), Fail> {
    for (op, address, want) in [
        (StoreOp::Sw, 0x11004, Some(0xffff_1234)),
        (StoreOp::Sh, 0x11005, Some(0x0012_3408)),
        (StoreOp::Sb, 0x11007, Some(0x3400_0008)),
        (StoreOp::Sw, 0x11ffc, Some(8)),
        (StoreOp::Sw, 0x11ffd, None),
        (StoreOp::Sh, 0x10fff, None),
        (StoreOp::Sb, 0x10fff, None),
        (StoreOp::Sw, 0xbfff_fffe, None),
        (StoreOp::Sb, 0xffff_ffff, None),
    ] {
        let left = left_by_store(rt.alloc(), op, address)?;
        expect_store(&rt, &left, address, want);
    }
    Ok(())
}

/// What a tracer leaves that emits the local in each of so many turns, with a budget.
fn left_by_turns(alloc: Global, budget: u32, turns: u32) -> Result<Record, Memory>
    requires least_budget { 1 ≤ budget }
    requires most_budget { budget ≤ 1000000 }
{
    let emits = Stmt::Emit(Expr::Local(0));
    let body = counting(alloc, turns, emits, Stmt::Run(Expr::Pc))?;
    left_by(alloc, budget, body)
}

/// The words of a record are their places.
fn expect_places(rt: &impl Abort, left: &Record, turns: u32) {
    for (i, word) in left.words.as_slice().iter().enumerate() {
        assert!(rt; *word as usize == i, "{turns}");
    }
}

/// Emits the local in each of so many turns, with a budget.
#[test]
fn counts_turns(rt: HostRuntime) -> Result<(), Fail> {
    for (budget, turns, words, end) in [
        (3, 3, 3, TracerEnd::Done),
        (3, 4, 3, TracerEnd::OverBudget),
        (1, 1, 1, TracerEnd::Done),
        (1, 2, 1, TracerEnd::OverBudget),
        (256, 256, 256, TracerEnd::Done),
        (257, 257, 256, TracerEnd::TooManyWords),
        (256, 257, 256, TracerEnd::OverBudget),
        (1_000_000, 1_000_000, 256, TracerEnd::TooManyWords),
    ] {
        let left = left_by_turns(rt.alloc(), budget, turns)?;
        expect_number(&rt, &left, words, end, turns);
        expect_places(&rt, &left, turns);
    }
    Ok(())
}

/// What a tracer leaves that stores a byte in each turn, and then emits the local.
fn left_by_stores(alloc: Global, turns: u32) -> Result<Record, Memory> {
    let store = Stmt::Store(StoreOp::Sb, Expr::Number(0x11000), Expr::Number(1));
    let body = counting(alloc, turns, store, Stmt::Emit(Expr::Local(0)))?;
    left_by(alloc, 1_000_000, body)
}

/// Stores a byte in each turn, and then emits the local.
#[test]
fn counts_stores(rt: HostRuntime) -> Result<(), Fail> {
    for (turns, words, end) in [
        (4096, [4096].as_slice(), TracerEnd::Done),
        (4097, [].as_slice(), TracerEnd::TooManyStores),
    ] {
        let left = left_by_stores(rt.alloc(), turns)?;
        expect(&rt, &left, words, end, turns);
    }
    Ok(())
}

/// What a tracer leaves that calls the function.
fn left_by_call(alloc: Global, budget: u32) -> Result<Record, Memory>
    requires least_budget { 1 ≤ budget }
    requires most_budget { budget ≤ 1000000 }
{
    let body = only(alloc, Stmt::Run(Expr::Call(0, Args::End)))?;
    left_by(alloc, budget, body)
}

/// The function calls itself until 32 calls are open, or the budget is spent.
#[test]
fn counts_calls(rt: HostRuntime) -> Result<(), Fail> {
    for (budget, words, end) in [
        (1_000_000, 32, TracerEnd::TooDeep),
        (32, 32, TracerEnd::TooDeep),
        (31, 31, TracerEnd::OverBudget),
    ] {
        let left = left_by_call(rt.alloc(), budget)?;
        expect_number(&rt, &left, words, end, budget);
    }
    Ok(())
}

/// What a tracer leaves that emits 1 and what a system call gives.
fn left_by_system_call(alloc: Global, code: u32, value: u32) -> Result<Record, Memory> {
    let code = Box::new(alloc, Expr::Number(code))?;
    let value = Box::new(alloc, Expr::Number(value))?;
    let body = only(alloc, Stmt::Emit(Expr::Sys(code, value)))?;
    left_by(alloc, 1, before(alloc, Stmt::Emit(Expr::Number(1)), body)?)
}

/// Emits 1 and what a system call gives. The break is 0x12000, and so is the heap's mapped end.
#[test]
fn calls_the_system(rt: HostRuntime) -> Result<(), Fail> {
    for (code, value, word, end) in [
        (214, 0, 0x12000, TracerEnd::Done),
        (214, 0x10fff, 0x12000, TracerEnd::Done),
        (214, 0x11000, 0x11000, TracerEnd::Done),
        (214, 0x12000, 0x12000, TracerEnd::Done),
        (214, 0x13001, 0x12000, TracerEnd::Done),
        (214, 0x12001, 0, TracerEnd::Barred(214)),
        (214, 0x13000, 0, TracerEnd::Barred(214)),
        (64, 0, 0, TracerEnd::Barred(64)),
    ] {
        let left = left_by_system_call(rt.alloc(), code, value)?;
        let known = if end == TracerEnd::Done { 2 } else { 1 };
        expect(&rt, &left, &[1, word][..known], end, value);
    }
    Ok(())
}

/// What a tracer leaves that emits 2 behind a `stop`.
fn left_by_stop(alloc: Global) -> Result<Record, Memory> {
    let body = only(alloc, Stmt::Emit(Expr::Number(2)))?;
    left_by(alloc, 1, before(alloc, Stmt::Stop(Expr::Number(9)), body)?)
}

/// What a tracer leaves that emits 2 behind a `return`.
fn left_by_return(alloc: Global) -> Result<Record, Memory> {
    let body = only(alloc, Stmt::Emit(Expr::Number(2)))?;
    left_by(
        alloc,
        1,
        before(alloc, Stmt::Return(Expr::Number(9)), body)?,
    )
}

/// What stands behind a `stop` or a `return` is not done.
#[test]
fn ends_early(rt: HostRuntime) -> Result<(), Fail> {
    let alloc = rt.alloc();
    expect(&rt, &left_by_stop(alloc)?, &[], TracerEnd::User(9), 0);
    expect(&rt, &left_by_return(alloc)?, &[], TracerEnd::Done, 1);
    Ok(())
}

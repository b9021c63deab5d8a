//! A script and its words, which were assembled by hand.

ghost use Rattle.std.specs.Prelude.{[]};
ghost use Rattle.tracer_lang.specs.Tree.{register, emit, statements_of, statement, no_statements};

use sl_base::{Memory, Seq};
use std::alloc::Global;
use std::test::Fail;
use tracer_compile::compile;
use tracer_lang::{Block, Expr, Point, Script, Stmt, Tracepoint};

/// `(budget 5) (at (addr 0) (emit (reg 5)))`.
fn script(alloc: Global) -> Result<Script, Memory> {
    let body = Block::And(
        Box::new(alloc, Stmt::Emit(Expr::Register(5)))?,
        Box::new(alloc, Block::End)?,
    );
    let mut tracepoints = Seq::new(alloc);
    tracepoints.push(Tracepoint {
        point: Point::Addr(0),
        locals: 0,
        body,
    })?;
    Ok(Script {
        budget: 5,
        functions: Seq::new(alloc),
        tracepoints,
    })
}

#[test]
fn a_script_has_these_words(rt: HostRuntime) -> Result<(), Fail> {
    let code = compile(rt.alloc(), &script(rt.alloc())?)?;
    let words = [
        0x0000_0593,
        0x0000_0513,
        0x0000_0073,
        0x0000_04b7,
        0x0054_8493,
        0x0200_0913,
        0xd000_02b7,
        0x08c2_a983,
        0x0942_8413,
        0x0084_0113,
        0xc000_00b7,
        0x0014_2023,
        0xd000_02b7,
        0x0142_a503,
        0xf000_02b7,
        0x0002_a303,
        0x1000_0393,
        0x0073_6863,
        0x0000_0593,
        0x0060_0513,
        0x0000_0073,
        0x0023_1393,
        0x0053_83b3,
        0x00a3_a223,
        0x0013_0313,
        0x0062_a023,
        0x0000_0513,
        0x0004_2083,
        0x0044_2283,
        0x0004_0113,
        0x0002_8413,
        0x0000_8067,
    ];
    assert_eq!(rt; code.words.as_slice(), words.as_slice());
    assert_eq!(rt; code.places.as_slice(), [3].as_slice());
    assert_eq!(rt; code.most, 192);
    Ok(())
}

//! The script of `trace .. at`.

ghost use Rattle.std.specs.Prelude.{◌≡◌, IfOk};
ghost use Rattle.tracer_lang.specs.Tree.{statements_of};
ghost use Rattle.tracer_lang.specs.Script.{tree_of};
ghost use Rattle.epoch_run.specs.AtScript.{emits_a0, at_tree};

use sl_base::{Memory, Seq};
use std::alloc::{AllocError, Global};
use tracer_lang::{Block, Expr, Point, Script, Stmt, Tracepoint};

/// Register a0.
const A0: u32 = 10;

/// The budget of a script that names none.
const DEFAULT_BUDGET: u32 = 1_000_000;

/// A body that emits register a0.
fn emits_a0(alloc: Global) -> Result<Block, AllocError>
    ensures { IfOk result (λ body. statements_of body ≡ emits_a0) }
{
    let emit = Stmt::Emit(Expr::Register(A0));
    Ok(Block::And(Box::new(alloc, emit)?, Box::new(alloc, Block::End)?))
}

/// The script with one tracepoint, at an address, that emits register a0.
///
/// # Errors
///
/// Want of memory.
pub fn at_script(alloc: Global, address: u32) -> Result<Script, Memory>
    ensures { IfOk result (λ script. tree_of script ≡ at_tree address) }
{
    let body = emits_a0(alloc)?;
    let mut tracepoints = Seq::new(alloc);
    tracepoints.push(Tracepoint {
        point: Point::Addr(address),
        locals: 0,
        body,
    })?;
    Ok(Script {
        budget: DEFAULT_BUDGET,
        functions: Seq::new(alloc),
        tracepoints,
    })
}

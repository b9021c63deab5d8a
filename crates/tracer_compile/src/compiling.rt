//! The code of a script. A first pass gives the addresses of the functions, since the length of
//! code does not depend on them; the second one makes the code.

ghost use Rattle.std.specs.Prelude.{◌≡◌, ◌+◌, ◌*◌, ◌≤◌, ◌^◌, ◌++◌, length, map, IfOk, OnOk};
ghost use Rattle.tracer_lang.specs.Script.{tree_of};
ghost use Rattle.tracer_code.specs.Sound.{StandsFor};
ghost use Rattle.word_blocks.specs.Code.{Spells};
ghost use Rattle.tracer_compile.specs.Script.{address_of, joined, places_from, function_codes, tracepoint_codes, addresses_of, script_code, places_of};

use crate::blocks;
use crate::scope::Scope;
use rv_decode::encode;
use sl_base::{Memory, Seq};
use sl_model::{CODE_START, Instr};
use std::alloc::Global;
use tracer_code::{TracerCode, outcomes};
use tracer_lang::Script;

/// The words of instructions.
fn words_of(alloc: Global, code: &[Instr]) -> Result<Vec<u32>, Memory>
    ensures { IfOk result (λ words. Spells words.items code.now) }
{
    let mut words = Vec::new(alloc);
    for instr in code {
        words.push(encode(instr))?;
    }
    Ok(words)
}

/// The code of the functions, where they are taken to be at some addresses. The result tells the
/// addresses at which they are.
fn functions(
    alloc: Global,
    script: &Script,
    addresses: &[u32],
    code: &mut Vec<Instr>,
) -> Result<Vec<u32>, Memory>
    requires addressed { length addresses.now ≡ length script.now.functions }
    requires room { length code.old.items
        + length (joined (function_codes (tree_of script.now) addresses.now)) ≤ 2 ^ 18 }
    ensures code { OnOk result (code.new.items
        ≡ code.old.items ++ joined (function_codes (tree_of script.now) addresses.now)) }
    ensures found { IfOk result (λ found. found.items
        ≡ map address_of (places_from (length code.old.items)
        (function_codes (tree_of script.now) addresses.now))) }
{
    let functions = script.functions.as_slice();
    let mut found = Vec::new(alloc);
    for f in functions {
        found.push(CODE_START + 4 * code.len() as u32)?;
        let scope = Scope {
            functions,
            addresses,
            locals: f.locals,
        };
        scope.body(code, &f.body)?;
    }
    Ok(found)
}

/// The code of the tracers. The result tells the place of each.
fn tracepoints(
    alloc: Global,
    script: &Script,
    addresses: &[u32],
    code: &mut Vec<Instr>,
) -> Result<Vec<u32>, Memory>
    requires addressed { length addresses.now ≡ length script.now.functions }
    requires room { length code.old.items
        + length (joined (tracepoint_codes (tree_of script.now) addresses.now)) ≤ 2 ^ 18 }
    ensures code { OnOk result (code.new.items
        ≡ code.old.items ++ joined (tracepoint_codes (tree_of script.now) addresses.now)) }
    ensures places { IfOk result (λ places. places.items
        ≡ places_from (length code.old.items)
        (tracepoint_codes (tree_of script.now) addresses.now)) }
{
    let functions = script.functions.as_slice();
    let mut places = Vec::new(alloc);
    for t in script.tracepoints.as_slice() {
        places.push(code.len() as u32)?;
        blocks::opening(code, script.budget, t.locals)?;
        let scope = Scope {
            functions,
            addresses,
            locals: t.locals,
        };
        scope.body(code, &t.body)?;
    }
    Ok(places)
}

/// The addresses of the functions.
fn addresses(alloc: Global, script: &Script) -> Result<Vec<u32>, Memory>
    ensures { IfOk result (λ found. found.items ≡ addresses_of (tree_of script.now)) }
{
    let mut unknown = Vec::new(alloc);
    unknown.resize(script.functions.len(), 0)?;
    let mut code = Vec::new(alloc);
    blocks::end_without(&mut code, outcomes::DONE)?;
    functions(alloc, script, &unknown, &mut code)
}

/// The instructions of a script's tracers, and the place of each tracer.
fn instructions(alloc: Global, script: &Script) -> Result<(Vec<Instr>, Vec<u32>), Memory>
    ensures code { IfOk result (λ made. made.0.items ≡ script_code (tree_of script.now)) }
    ensures places { IfOk result (λ made. made.1.items ≡ places_of (tree_of script.now)) }
{
    let addresses = addresses(alloc, script)?;
    let mut code = Vec::new(alloc);
    blocks::end_without(&mut code, outcomes::DONE)?;
    functions(alloc, script, &addresses, &mut code)?;
    let places = tracepoints(alloc, script, &addresses, &mut code)?;
    Ok((code, places))
}

/// The words of the code of a script's tracers, with the place of each tracer and the bound of
/// instructions for one run: each word is run at most once for each unit of the budget, and once
/// more.
fn spelled(alloc: Global, script: &Script) -> Result<TracerCode, Memory>
    ensures words { IfOk result (λ code. Spells code.words (script_code (tree_of script.now))) }
    ensures places { IfOk result (λ code. code.places ≡ places_of (tree_of script.now)) }
    ensures most { IfOk result (λ code.
        code.most ≡ length (script_code (tree_of script.now)) * (script.now.budget + 1)) }
{
    let (code, places) = instructions(alloc, script)?;
    let words = words_of(alloc, &code)?;
    let most = words.len() as u64 * (u64::from(script.budget) + 1);
    Ok(TracerCode {
        words: Seq::from_vec(words),
        places: Seq::from_vec(places),
        most,
    })
}

/// Compiles a script. The code stands for it: wherever a tracepoint fires, the run of its words
/// beside the program ends within the code's bound, leaves the words, the outcome and the number
/// of stores that the tracer means on a copy of the machine, and lets the program's memory be had
/// back from the log at every step.
///
/// # Errors
///
/// Want of memory.
pub fn compile(alloc: Global, script: &Script) -> Result<TracerCode, Memory>
    ensures { IfOk result (λ code. StandsFor code (tree_of script.now)) }
{
    spelled(alloc, script)
}

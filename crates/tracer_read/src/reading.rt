//! Reads scripts.

ghost use Rattle.std.specs.Prelude.{◌<◌, ◌^◌};
ghost use Rattle.sl_base.specs.Refusals.{Gives};
ghost use Rattle.tracer_lang.specs.Script.{tree_of};
ghost use Rattle.tracer_text.specs.Nodes.{trees_of};
ghost use Rattle.tracer_read.specs.Parts.{part_count};
ghost use Rattle.tracer_read.specs.Scripts.{items, nothing, surroundings, script_of_text};
ghost use Rattle.tracer_read.specs.Drafts.{draft_of};

use crate::context::Context;
use crate::draft::Draft;
use crate::scripts::{read_items, signatures};
use sl_base::{Refused, Symbol};
use std::alloc::Global;
use tracer_lang::Script;
use tracer_text::{Nodes, ScriptFault, first_pass, nodes_of};

/// The budget of a script that names none.
const DEFAULT_BUDGET: u32 = 1_000_000;

/// The second pass, over the nodes of a text.
fn read_nodes(
    alloc: Global,
    text: &[u8],
    symbols: &[Symbol],
    nodes: &Nodes,
) -> Result<Draft, Refused<ScriptFault>>
    requires { part_count (trees_of nodes.now) < 2 ^ 32 }
    ensures { Gives draft_of result
        (items (surroundings text.now symbols.now (trees_of nodes.now)) (trees_of nodes.now)
        nothing) }
{
    let functions = signatures(alloc, text, nodes)?;
    let context = Context {
        text,
        symbols,
        functions: functions.as_slice(),
    };
    read_items(alloc, &context, nodes)
}

/// The script that a text is, with the symbols of a program; or its first fault.
///
/// Words name the first symbol or function of their name. The text is read in two passes: the
/// first looks for bytes, parentheses and sizes that no script has, the second for lists, names and
/// numbers that are no form of their place.
pub fn read_script(
    alloc: Global,
    text: &[u8],
    symbols: &[Symbol],
) -> Result<Script, Refused<ScriptFault>>
    ensures { Gives tree_of result (script_of_text text.now symbols.now) }
{
    let tokens = first_pass(alloc, text)?;
    let nodes = nodes_of(alloc, text, tokens.as_slice())?;
    let draft = read_nodes(alloc, text, symbols, &nodes)?;
    let budget = draft.budget.unwrap_or(DEFAULT_BUDGET);
    Ok(Script {
        budget,
        functions: draft.functions,
        tracepoints: draft.tracepoints,
    })
}

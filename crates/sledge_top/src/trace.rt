//! The commands over one recording.

ghost use Rattle.std.specs.Prelude.{◌≡◌, ◌≤◌, [], IfOk, IfErr, IfSome, IsErrOf};
ghost use Rattle.outside.specs.Faults.{Rose};
ghost use Rattle.sl_base.specs.Refusals.{Gives};
ghost use Rattle.elf_image.specs.Loadable.{IsLoadable};
ghost use Rattle.rec_format.specs.Rules.{IsRecordingValue};
ghost use Rattle.tracer_lang.specs.Script.{tree_of};
ghost use Rattle.replay.specs.Opening.{opening};
ghost use Rattle.checkpoints.specs.RecordedRun.{opened_of};
ghost use Rattle.epoch_run.specs.Images.{image_in, IsImageOf};
ghost use Rattle.epoch_run.specs.Symbols.{IsOver};
ghost use Rattle.cli_words.specs.Orders.{FitsTrace};
ghost use Rattle.cli_words.specs.Views.{words_view, trace_view};
ghost use Rattle.sledge_top.specs.Files.{refused_by};
ghost use Rattle.sledge_top.specs.Recordings.{recording_of, image_of, recorded, recorded_in};
ghost use Rattle.sledge_top.specs.Replays.{broken_by, traced, replayed_alone};
ghost use Rattle.sledge_top.specs.Traces.{traced_with, script_of, script_in, trace_by, trace_at, replay, check};
ghost use Rattle.sledge_top.specs.Runs.{run_in};
ghost use Rattle.sledge_top.specs.Endings.{IsLater, IsLaterFault};
ghost use Rattle.sledge_top.specs.Views.{done_view, Comes, IsLaterFailure};

use crate::done::Done;
use crate::failure::Failure;
use crate::kinds::kinds_of;
use crate::runs::run_plan;
use crate::store::file_of;
use analysers::{Kind, Merged};
use call_log::{Break, BreakKind};
use checkpoints::Checkpoints;
use cli_words::TraceOptions;
use elf_image::{Image, ImageFault, flat_image, read_image};
use epoch_cut::cut;
use epoch_run::{CompiledScript, Plan, at_script, runs_end_as_recorded};
use outside::{Gate, Store};
use rec_format::{Recording, read_recording};
use replay::load;
use report::{Refusal, checked_text, recorded_end, report_text};
use sl_base::{Memory, Refused, Seq};
use std::alloc::Global;
use std::thread::Threads;
use tracepoints::Points;
use tracer_compile::compile;
use tracer_lang::Script;
use tracer_read::read_script;

/// The most bytes of a recording.
const RECORDING_LIMIT: u64 = 268_435_456;

/// The most bytes of a script.
const SCRIPT_LIMIT: u64 = 65_536;

/// The recording that the bytes spell.
fn recording_of(alloc: Global, bytes: &[u8]) -> Result<Recording, Refused<Refusal>>
    ensures value { Gives (λ rec. rec) result (recording_of bytes.now) }
    ensures rules { IfOk result IsRecordingValue }
    ensures later { IfErr result IsLaterFault }
{
    match read_recording(alloc, bytes) {
        Ok(rec) => Ok(rec),
        Err(Refused::Fault(fault)) => Err(Refused::Fault(Refusal::RecordingBroken(fault))),
        Err(Refused::Memory) => Err(Refused::Memory),
    }
}

/// The image of a recording, flat or an ELF file.
fn image_in(alloc: Global, rec: &Recording) -> Result<Image, Refused<ImageFault>>
    requires { IsRecordingValue rec.now }
    ensures value { Gives (λ image. image) result (image_in rec.now) }
    ensures loadable { IfOk result IsLoadable }
{
    if rec.kind == 0 {
        flat_image(alloc, rec.load_addr, rec.image.as_slice())
    } else {
        read_image(alloc, rec.image.as_slice())
    }
}

/// The same, or how the command is refused.
pub fn image_of(alloc: Global, rec: &Recording) -> Result<Image, Refused<Refusal>>
    requires { IsRecordingValue rec.now }
    ensures value { Gives (λ image. image) result (image_of rec.now) }
    ensures spelled { IfOk result (λ image. IsImageOf image rec.now) }
    ensures loadable { IfOk result IsLoadable }
    ensures later { IfErr result IsLaterFault }
{
    match image_in(alloc, rec) {
        Ok(image) => Ok(image),
        Err(Refused::Fault(fault)) => Err(Refused::Fault(Refusal::ImageBroken(fault))),
        Err(Refused::Memory) => Err(Refused::Memory),
    }
}

/// How a command is refused where the replay first differs from its recording.
fn broken_by(first: Break) -> Refusal
    ensures refusal { result ≡ broken_by first first.kind }
    ensures later { IsLater result }
{
    match first.kind {
        BreakKind::CheckpointDiffers { .. } => Refusal::CheckpointDiffers(first),
        BreakKind::NoCall { .. }
        | BreakKind::CallDiffers { .. }
        | BreakKind::EarlyEnd { .. }
        | BreakKind::EndDiffers { .. }
        | BreakKind::CallsLeft { .. } => Refusal::ReplayBroken(first),
    }
}

/// What the analyses of a plan give of what its tracers leave on its replay, or how the command is
/// refused.
pub fn replay_plan<R: Threads + Sync, G: Gate>(
    rt: &R,
    alloc: Global,
    plan: &Plan,
    workers: u32,
    gate: &G,
) -> Result<Merged, Refused<Refusal>>
    ensures merged { Gives (λ merged. merged) result
        (refused_by (λ first. broken_by first first.kind) (run_in plan.now)) }
    ensures later { IfErr result IsLaterFault }
{
    match run_plan(rt, alloc, plan, workers, gate) {
        Ok(merged) => Ok(merged),
        Err(Refused::Fault(first)) => Err(Refused::Fault(broken_by(first))),
        Err(Refused::Memory) => Err(Refused::Memory),
    }
}

/// The report of a plan, with its analyses of what its tracers leave.
fn traced<R: Threads + Sync, G: Gate>(
    rt: &R,
    alloc: Global,
    plan: &Plan,
    workers: u32,
    gate: &G,
) -> Result<Vec<u8>, Refused<Refusal>>
    ensures text { Gives (λ text. text.items) result (traced plan.now.checkpoints.rec
        (tree_of plan.now.tracers.script) plan.now.kinds (opened_of plan.now.checkpoints)) }
    ensures later { IfErr result IsLaterFault }
{
    runs_end_as_recorded();
    let merged = replay_plan(rt, alloc, plan, workers, gate)?;
    let last = recorded_end(&plan.checkpoints.rec);
    Ok(report_text(alloc, &merged, plan.kinds.as_slice(), &last)?)
}

/// The report of a plan that has no analyses.
fn replayed_alone<R: Threads + Sync, G: Gate>(
    rt: &R,
    alloc: Global,
    plan: &Plan,
    gate: &G,
) -> Result<Vec<u8>, Refused<Refusal>>
    requires { plan.now.kinds ≡ [] }
    ensures text { Gives (λ text. text.items) result
        (replayed_alone plan.now.checkpoints.rec (opened_of plan.now.checkpoints)) }
    ensures later { IfErr result IsLaterFault }
{
    runs_end_as_recorded();
    let merged = replay_plan(rt, alloc, plan, 1, gate)?;
    let last = recorded_end(&plan.checkpoints.rec);
    Ok(report_text(alloc, &merged, plan.kinds.as_slice(), &last)?)
}

/// The checkpoints of a recording, from the opening state of its image.
fn checkpoints_of(alloc: Global, rec: Recording, image: &Image) -> Result<Checkpoints, Memory>
    requires rules { IsRecordingValue rec }
    requires image { IsLoadable image.now }
    ensures recording { IfOk result (λ checkpoints. checkpoints.rec ≡ rec) }
    ensures opened { IfOk result (λ checkpoints.
        opened_of checkpoints ≡ opening image.now rec.args) }
{
    let (machine, frames) = load(alloc, image, rec.args.as_slice())?;
    Checkpoints::new(alloc, rec, machine, frames)
}

/// A recording and its image with a script and analyses, cut into at most so many epochs, or into
/// one for each interval between checkpoints.
pub fn plan_of(
    alloc: Global,
    rec: Recording,
    image: Image,
    script: Script,
    kinds: Seq<Kind>,
    epochs: Option<u32>,
) -> Result<Plan, Memory>
    requires rules { IsRecordingValue rec }
    requires spelled { IsImageOf image rec }
    requires image { IsLoadable image }
    requires over { IsOver image.symbols (tree_of script) }
    requires epochs { IfSome epochs (λ n. (1 ≤ n) × (n ≤ 4096)) }
    ensures recording { IfOk result (λ plan. plan.checkpoints.rec ≡ rec) }
    ensures opened { IfOk result (λ plan. opened_of plan.checkpoints ≡ opening image rec.args) }
    ensures image { IfOk result (λ plan. plan.image ≡ image) }
    ensures script { IfOk result (λ plan. tree_of plan.tracers.script ≡ tree_of script) }
    ensures kinds { IfOk result (λ plan. plan.kinds ≡ kinds) }
{
    let checkpoints = checkpoints_of(alloc, rec, &image)?;
    let segments = checkpoints.segments();
    let cutting = cut(alloc, segments, epochs.unwrap_or(segments))?;
    let points = Points::new(alloc, &script)?;
    let code = compile(alloc, &script)?;
    let tracers = CompiledScript::new(script, code);
    Ok(Plan {
        image,
        checkpoints,
        cutting,
        tracers,
        points,
        kinds,
    })
}

/// The report of a recording and its image, with analyses of what the tracers of a script leave.
fn traced_from<R: Threads + Sync, G: Gate>(
    rt: &R,
    alloc: Global,
    rec: Recording,
    image: Image,
    script: Script,
    kinds: Seq<Kind>,
    epochs: Option<u32>,
    workers: u32,
    gate: &G,
) -> Result<Vec<u8>, Refused<Refusal>>
    requires rules { IsRecordingValue rec }
    requires spelled { IsImageOf image rec }
    requires image { IsLoadable image }
    requires over { IsOver image.symbols (tree_of script) }
    requires epochs { IfSome epochs (λ n. (1 ≤ n) × (n ≤ 4096)) }
    ensures text { Gives (λ text. text.items) result
        (traced rec (tree_of script) kinds (opening image rec.args)) }
    ensures later { IfErr result IsLaterFault }
{
    let plan = plan_of(alloc, rec, image, script, kinds, epochs)?;
    traced(rt, alloc, &plan, workers, gate)
}

/// The report of a recording and its image, with the analyses that words name of what the tracers
/// of a script leave.
pub fn traced_with<'a, R: Threads + Sync, G: Gate>(
    rt: &R,
    alloc: Global,
    rec: Recording,
    image: Image,
    script: Script,
    options: &TraceOptions<'_>,
    gate: &G,
) -> Result<Done<'a>, Refused<Refusal>>
    requires rules { IsRecordingValue rec }
    requires spelled { IsImageOf image rec }
    requires image { IsLoadable image }
    requires over { IsOver image.symbols (tree_of script) }
    requires options { FitsTrace (trace_view options.now) }
    ensures value { Gives done_view result
        (traced_with rec image (tree_of script) (words_view options.now.analyses.items)) }
    ensures later { IfErr result IsLaterFault }
{
    let kinds = kinds_of(alloc, &options.analyses)?;
    let (epochs, workers) = (options.epochs, options.workers);
    let text = traced_from(rt, alloc, rec, image, script, kinds, epochs, workers, gate)?;
    Ok(Done { text, put: None })
}

/// A script without tracers.
pub fn no_tracers(alloc: Global) -> Script
    ensures { result.tracepoints ≡ [] }
{
    Script {
        budget: 1,
        functions: Seq::new(alloc),
        tracepoints: Seq::new(alloc),
    }
}

/// The report of a recording and its image, without tracers.
fn replayed_from<R: Threads + Sync, G: Gate>(
    rt: &R,
    alloc: Global,
    rec: Recording,
    image: Image,
    gate: &G,
) -> Result<Vec<u8>, Refused<Refusal>>
    requires rules { IsRecordingValue rec }
    requires spelled { IsImageOf image rec }
    requires image { IsLoadable image }
    ensures text { Gives (λ text. text.items) result
        (replayed_alone rec (opening image rec.args)) }
    ensures later { IfErr result IsLaterFault }
{
    let plan = plan_of(alloc, rec, image, no_tracers(alloc), Seq::new(alloc), None)?;
    replayed_alone(rt, alloc, &plan, gate)
}

/// The recording and the image that the bytes of a file spell.
fn recorded(alloc: Global, bytes: &[u8]) -> Result<(Recording, Image), Refused<Refusal>>
    ensures value { Gives (λ both. both) result (recorded bytes.now) }
    ensures rules { IfOk result (λ both. IsRecordingValue both.0) }
    ensures spelled { IfOk result (λ both. IsImageOf both.1 both.0) }
    ensures loadable { IfOk result (λ both. IsLoadable both.1) }
    ensures later { IfErr result IsLaterFault }
{
    let rec = recording_of(alloc, bytes)?;
    let image = image_of(alloc, &rec)?;
    Ok((rec, image))
}

/// The recording and the image of a file.
pub fn recorded_in<S: Store>(
    alloc: Global,
    name: &str,
    store: &mut S,
) -> Result<(Recording, Image), Failure>
    ensures value { IfSome (S.told store.old) (λ files.
        Comes (λ both. both) result (recorded_in files name.now)) }
    ensures rules { IfOk result (λ both. IsRecordingValue both.0) }
    ensures spelled { IfOk result (λ both. IsImageOf both.1 both.0) }
    ensures loadable { IfOk result (λ both. IsLoadable both.1) }
    ensures failed { IsErrOf result Failure.StoreFault
        → Rose (S.faults store.old) (S.faults store.new) }
    ensures later { IfErr result IsLaterFailure }
    ensures faults { S.faults store.old ≤ S.faults store.new }
    ensures same { S.told store.new ≡ S.told store.old }
{
    let bytes = file_of(alloc, store, name, RECORDING_LIMIT)?;
    Ok(recorded(alloc, &bytes)?)
}

/// The script that a text is, with the symbols of an image.
pub fn script_of(alloc: Global, image: &Image, text: &[u8]) -> Result<Script, Refused<Refusal>>
    ensures value { Gives tree_of result (script_of image.now text.now) }
    ensures over { IfOk result (λ script. IsOver image.now.symbols (tree_of script)) }
    ensures later { IfErr result IsLaterFault }
{
    match read_script(alloc, text, image.symbols.as_slice()) {
        Ok(script) => Ok(script),
        Err(Refused::Fault(fault)) => Err(Refused::Fault(Refusal::ScriptRefused(fault))),
        Err(Refused::Memory) => Err(Refused::Memory),
    }
}

/// The script of a file, with the symbols of an image.
fn script_in<S: Store>(
    alloc: Global,
    image: &Image,
    name: &str,
    store: &mut S,
) -> Result<Script, Failure>
    ensures value { IfSome (S.told store.old) (λ files.
        Comes tree_of result (script_in files image.now name.now)) }
    ensures over { IfOk result (λ script. IsOver image.now.symbols (tree_of script)) }
    ensures failed { IsErrOf result Failure.StoreFault
        → Rose (S.faults store.old) (S.faults store.new) }
    ensures later { IfErr result IsLaterFailure }
    ensures faults { S.faults store.old ≤ S.faults store.new }
    ensures same { S.told store.new ≡ S.told store.old }
{
    let text = file_of(alloc, store, name, SCRIPT_LIMIT)?;
    Ok(script_of(alloc, image, &text)?)
}

/// `trace RECORDING SCRIPT`: the report of a recording, with the analyses that words name of what
/// the tracers of a script leave. Its epochs are run by so many workers.
pub fn trace_by<'a, R: Threads + Sync, S: Store, G: Gate>(
    rt: &R,
    alloc: Global,
    name: &str,
    script: &str,
    options: &TraceOptions<'_>,
    store: &mut S,
    gate: &G,
) -> Result<Done<'a>, Failure>
    requires { FitsTrace (trace_view options.now) }
    ensures answer { IfSome (S.told store.old) (λ files. Comes done_view result
        (trace_by files name.now script.now (words_view options.now.analyses.items))) }
    ensures failed { IsErrOf result Failure.StoreFault
        → Rose (S.faults store.old) (S.faults store.new) }
    ensures later { IfErr result IsLaterFailure }
    ensures faults { S.faults store.old ≤ S.faults store.new }
    ensures same { S.told store.new ≡ S.told store.old }
{
    let (rec, image) = recorded_in(alloc, name, store)?;
    let script = script_in(alloc, &image, script, store)?;
    Ok(traced_with(rt, alloc, rec, image, script, options, gate)?)
}

/// `trace RECORDING at HEX`: the report of a recording, with register a0 recorded wherever pc is at
/// the address, and the analyses that words name. Its epochs are run by so many workers.
pub fn trace_at<'a, R: Threads + Sync, S: Store, G: Gate>(
    rt: &R,
    alloc: Global,
    name: &str,
    address: u32,
    options: &TraceOptions<'_>,
    store: &mut S,
    gate: &G,
) -> Result<Done<'a>, Failure>
    requires { FitsTrace (trace_view options.now) }
    ensures answer { IfSome (S.told store.old) (λ files. Comes done_view result
        (trace_at files name.now address (words_view options.now.analyses.items))) }
    ensures failed { IsErrOf result Failure.StoreFault
        → Rose (S.faults store.old) (S.faults store.new) }
    ensures later { IfErr result IsLaterFailure }
    ensures faults { S.faults store.old ≤ S.faults store.new }
    ensures same { S.told store.new ≡ S.told store.old }
{
    let (rec, image) = recorded_in(alloc, name, store)?;
    let script = at_script(alloc, address)?;
    Ok(traced_with(rt, alloc, rec, image, script, options, gate)?)
}

/// `replay RECORDING`: the report of a recording, without an analysis.
pub fn replay<'a, R: Threads + Sync, S: Store, G: Gate>(
    rt: &R,
    alloc: Global,
    name: &str,
    store: &mut S,
    gate: &G,
) -> Result<Done<'a>, Failure>
    ensures answer { IfSome (S.told store.old) (λ files.
        Comes done_view result (replay files name.now)) }
    ensures failed { IsErrOf result Failure.StoreFault
        → Rose (S.faults store.old) (S.faults store.new) }
    ensures later { IfErr result IsLaterFailure }
    ensures faults { S.faults store.old ≤ S.faults store.new }
    ensures same { S.told store.new ≡ S.told store.old }
{
    let (rec, image) = recorded_in(alloc, name, store)?;
    let text = replayed_from(rt, alloc, rec, image, gate)?;
    Ok(Done { text, put: None })
}

/// `check RECORDING`: how many calls and checkpoints a recording has, and where it ends. It is not
/// replayed.
pub fn check<'a, S: Store>(alloc: Global, name: &str, store: &mut S) -> Result<Done<'a>, Failure>
    ensures answer { IfSome (S.told store.old) (λ files.
        Comes done_view result (check files name.now)) }
    ensures failed { IsErrOf result Failure.StoreFault
        → Rose (S.faults store.old) (S.faults store.new) }
    ensures later { IfErr result IsLaterFailure }
    ensures faults { S.faults store.old ≤ S.faults store.new }
    ensures same { S.told store.new ≡ S.told store.old }
{
    let (rec, _image) = recorded_in(alloc, name, store)?;
    let text = checked_text(alloc, &rec)?;
    Ok(Done { text, put: None })
}

//! The commands.

ghost use Rattle.std.specs.Prelude.{◌≡◌, ◌≤◌, ◌⊎◌, IfErr, IfSome, Some, None, IsErrOf, false};
ghost use Rattle.outside.specs.Faults.{Rose};
ghost use Rattle.outside.specs.World.{HearsAll};
ghost use Rattle.outside.specs.Written.{Adds, AddsPrefix};
ghost use Rattle.report.specs.Status.{fault_line};
ghost use Rattle.cli_words.specs.Orders.{order_of, Fits};
ghost use Rattle.cli_words.specs.Views.{texts, order_view};
ghost use Rattle.sledge_top.specs.Generating.{GeneratesTo, IfGen};
ghost use Rattle.sledge_top.specs.Answer.{asks_world, ComesTo};
ghost use Rattle.sledge_top.specs.Endings.{IsSilent, Answers, AnswersAlone};
ghost use Rattle.sledge_top.specs.Views.{ComesSo, IsLaterFailure};

use crate::assemble::asm;
use crate::done::Done;
use crate::failure::Failure;
use crate::finish::finish;
use crate::generated::generate_and_trace;
use crate::recording::record_image;
use crate::recutting::recut;
use crate::show::show;
use crate::trace::{check, replay, trace_at, trace_by};
use cli_words::{Order, read_words};
use outside::{Gate, Sink, Store, World};
use report::{Refusal, Status, write_fault};
use sl_base::Refused;
use std::alloc::Global;
use std::thread::Threads;

/// Does a command but for its file and its text.
fn done_by<'a, R: Threads + Sync, S: Store, W: World, G: Gate>(
    rt: &R,
    alloc: Global,
    order: &Order<'a>,
    store: &mut S,
    world: &mut W,
    gate: &G,
) -> Result<Done<'a>, Failure>
    requires { Fits (order_view order.now) }
    ensures answer { IfSome (S.told store.old) (λ files.
        ComesSo (ComesTo files (Some (order_view order.now))
        (HearsAll W.hears world.old world.new)) result) }
    ensures generated { IfGen (Some (order_view order.now)) (λ seed size.
        ComesSo (GeneratesTo seed size) result) }
    ensures later { IfErr result IsLaterFailure }
    ensures failed { IsErrOf result Failure.StoreFault
        → Rose (S.faults store.old) (S.faults store.new) }
    ensures faults { S.faults store.old ≤ S.faults store.new }
    ensures same { S.told store.new ≡ S.told store.old }
    ensures world { asks_world (Some (order_view order.now)) ≡ false
        → world.new ≡ world.old }
{
    match order {
        Order::Trace {
            recording,
            script,
            options,
        } => trace_by(rt, alloc, recording, script, options, store, gate),
        Order::TraceAt {
            recording,
            address,
            options,
        } => trace_at(rt, alloc, recording, *address, options, store, gate),
        Order::Replay { recording } => replay(rt, alloc, recording, store, gate),
        Order::Check { recording } => check(alloc, recording, store),
        Order::Record {
            image,
            output,
            options,
        } => record_image(alloc, image, output, options, store, world),
        Order::Recut {
            recording,
            output,
            every,
        } => recut(rt, alloc, recording, output, *every, store, gate),
        Order::Show {
            image,
            address,
            lines,
            flat,
        } => show(alloc, image, *address, *lines, *flat, store),
        Order::Asm { source, output } => asm(alloc, source, output, store),
        Order::Gen { seed, size } => generate_and_trace(rt, alloc, *seed, *size, gate),
    }
}

/// Does the command that the words name, but for its file and its text.
fn named<'a, R: Threads + Sync, S: Store, W: World, G: Gate>(
    rt: &R,
    alloc: Global,
    words: &'a [String],
    store: &mut S,
    world: &mut W,
    gate: &G,
) -> Result<Done<'a>, Failure>
    ensures usage { IsErrOf result (Failure.Refused Refusal.Usage)
        → order_of (texts words.now) ≡ None }
    ensures usage_always { order_of (texts words.now) ≡ None
        → IsErrOf result (Failure.Refused Refusal.Usage) ⊎ IsErrOf result Failure.Memory }
    ensures answer { IfSome (S.told store.old) (λ files.
        ComesSo (ComesTo files (order_of (texts words.now))
        (HearsAll W.hears world.old world.new)) result) }
    ensures generated { IfGen (order_of (texts words.now)) (λ seed size.
        ComesSo (GeneratesTo seed size) result) }
    ensures failed { IsErrOf result Failure.StoreFault
        → Rose (S.faults store.old) (S.faults store.new) }
    ensures faults { S.faults store.old ≤ S.faults store.new }
    ensures same { S.told store.new ≡ S.told store.old }
    ensures world { asks_world (order_of (texts words.now)) ≡ false → world.new ≡ world.old }
{
    let order = match read_words(alloc, words) {
        Ok(order) => order,
        Err(Refused::Fault(_)) => return Err(Failure::Refused(Refusal::Usage)),
        Err(Refused::Memory) => return Err(Failure::Memory),
    };
    done_by(rt, alloc, &order, store, world, gate)
}

/// Does a command but for the line of the second output.
fn run<R: Threads + Sync, S: Store, W: World, O: Sink, G: Gate>(
    rt: &R,
    alloc: Global,
    words: &[String],
    store: &mut S,
    world: &mut W,
    out: &mut O,
    gate: &G,
) -> Status
    ensures usage { result ≡ Status.Refused Refusal.Usage → order_of (texts words.now) ≡ None }
    ensures usage_always { order_of (texts words.now) ≡ None
        → (result ≡ Status.Refused Refusal.Usage) ⊎ (result ≡ Status.Memory) }
    ensures answer { IfSome (S.told store.old) (λ files.
        Answers (ComesTo files (order_of (texts words.now))
        (HearsAll W.hears world.old world.new))
        result files (S.told store.new) (O.written out.old) (O.written out.new)) }
    ensures generated { IfGen (order_of (texts words.now)) (λ seed size.
        AnswersAlone (GeneratesTo seed size) result (O.written out.old) (O.written out.new)) }
    ensures store_fault { result ≡ Status.StoreFault
        → Rose (S.faults store.old) (S.faults store.new) }
    ensures sink_fault { result ≡ Status.SinkFault → Rose (O.faults out.old) (O.faults out.new) }
    ensures silent { IsSilent result → O.written out.new ≡ O.written out.old }
    ensures world { asks_world (order_of (texts words.now)) ≡ false
        → world.new ≡ world.old }
{
    let outcome = named(rt, alloc, words, store, world, gate);
    finish(alloc, outcome, store, out)
}

/// Does the command that the words name. It returns for every command, and waits on nothing.
///
/// The text of a command goes to `out`, and its line of refusal to `err`. `world` is asked by the
/// command that records, and `gate` is told of each claim of an epoch.
pub fn sledge<R: Threads + Sync, S: Store, W: World, O: Sink, E: Sink, G: Gate>(
    rt: &R,
    alloc: Global,
    words: &[String],
    store: &mut S,
    world: &mut W,
    out: &mut O,
    err: &mut E,
    gate: &G,
) -> Status
    // A refusal for the words comes exactly where they name no command, but for want of memory.
    ensures usage { result ≡ Status.Refused Refusal.Usage → order_of (texts words.now) ≡ None }
    ensures usage_always { order_of (texts words.now) ≡ None
        → (result ≡ Status.Refused Refusal.Usage) ⊎ (result ≡ Status.Memory) }

    // Where the store tells its files, the command comes to its outcome, and the one that records to
    // a recording over the replies of the world. It ends as it comes to, the first output gains its
    // whole text, and the files have the one that is put. After a fault of the first output that
    // has some of the text from the first byte on; after a refusal nothing was written, and the
    // files are as before; after a fault of the store the file that was to be put may have any bytes
    // or none. Memory alone may be wanting for no reason, and then nothing was written or put.
    ensures answer { IfSome (S.told store.old) (λ files.
        Answers (ComesTo files (order_of (texts words.now))
        (HearsAll W.hears world.old world.new))
        result files (S.told store.new) (O.written out.old) (O.written out.new)) }

    // The command that generates a program needs no file: it ends so and says so whatever the store
    // tells.
    ensures generated { IfGen (order_of (texts words.now)) (λ seed size.
        AnswersAlone (GeneratesTo seed size) result (O.written out.old) (O.written out.new)) }

    // A fault of the store or of the first output comes only where its count of faults rose.
    ensures store_fault { result ≡ Status.StoreFault
        → Rose (S.faults store.old) (S.faults store.new) }
    ensures sink_fault { result ≡ Status.SinkFault → Rose (O.faults out.old) (O.faults out.new) }

    // After every ending but `Ok` and a fault of the first output that has gained nothing, whatever
    // the store tells.
    ensures silent { IsSilent result → O.written out.new ≡ O.written out.old }

    // The second output gains the whole line of the ending, or where its count of faults rose some,
    // from the first byte on.
    ensures line { Adds (E.written err.old) (E.written err.new) (fault_line result)
        ⊎ (Rose (E.faults err.old) (E.faults err.new)
        × AddsPrefix (E.written err.old) (E.written err.new) (fault_line result)) }

    // The world is asked by the command that records alone.
    ensures world { asks_world (order_of (texts words.now)) ≡ false
        → world.new ≡ world.old }
{
    let status = run(rt, alloc, words, store, world, out, gate);
    let _ = write_fault(err, &status);
    status
}

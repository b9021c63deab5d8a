//! Points at a store, at its address and in its range, and their order, worked by hand.

ghost use Rattle.std.specs.Prelude.{◌≡◌, All};
ghost use Rattle.tracer_lang.specs.Limits.{FitsPoint};

use crate::{Fired, Points};
use page_frames::Frames;
use rv_machine::Machine;
use sl_base::{Memory, Seq};
use sl_model::{Bus, Layout, RunState};
use std::alloc::{AllocError, Global};
use std::test::Fail;
use tracer_lang::{Block, Point, Script, Tracepoint};

/// A machine before `sw t1, 5(t0)` at 0x10010, with 0x11000 in t0.
fn before_store(alloc: Global) -> Result<(Machine, Frames), Memory> {
    let mut frames = Frames::new(alloc)?;
    frames.map_page(0x10)?;
    frames.store(0x10010, 4, 0x0062_a2a3);
    let mut x = [0; 32];
    x[5] = 0x11000;
    let machine = Machine {
        pc: 0x10010,
        x,
        brk: 0x12000,
        brk_end: 0x12000,
        next_call: 0,
        status: RunState::Running,
        count: 4,
        layout: Layout {
            brk_start: 0x12000,
            heap_limit: 0x12000,
        },
    };
    Ok((machine, frames))
}

/// A tracer that does nothing.
fn tracer_at(point: Point) -> Tracepoint
    ensures { result ≡ record { point = point; locals = 0; body = Block.End } }
{
    Tracepoint {
        point,
        locals: 0,
        body: Block::End,
    }
}

/// A script of three tracers that do nothing.
fn script_at(alloc: Global, points: [Point; 3]) -> Result<Script, AllocError>
    requires { All FitsPoint points }
{
    let [first, second, third] = points;
    let mut tracepoints = Seq::new(alloc);
    tracepoints.push(tracer_at(first))?;
    tracepoints.push(tracer_at(second))?;
    tracepoints.push(tracer_at(third))?;
    Ok(Script {
        budget: 1,
        functions: Seq::new(alloc),
        tracepoints,
    })
}

/// Which of three points fire at the store, whose memory is not mapped.
fn firing(alloc: Global, points: [Point; 3]) -> Result<Fired, Memory>
    requires { All FitsPoint points }
{
    let script = script_at(alloc, points)?;
    let (m, f) = before_store(alloc)?;
    let points = Points::new(alloc, &script)?;
    let mut out = Fired::new();
    points.fires(&m, &f, &mut out);
    Ok(out)
}

/// Whether a point fires there, after two that don't.
fn fires(alloc: Global, point: Point) -> Result<bool, Memory>
    requires { FitsPoint point }
{
    let out = firing(alloc, [Point::Addr(0), Point::Enter(0), point])?;
    Ok(out.as_slice() == [2].as_slice())
}

#[test]
fn fires_where_it_stands(rt: HostRuntime) -> Result<(), Fail> {
    for (address, want) in [(0x10010, true), (0x1000c, false), (0x11010, false)] {
        assert!(rt;
            fires(rt.alloc(), Point::Addr(address))? == want,
            "at {address}"
        );
        assert!(rt;
            fires(rt.alloc(), Point::Enter(address))? == want,
            "at {address}"
        );
    }
    for (address, len, want) in [
        (0x11005, 1, true),
        (0x11008, 4, true),
        (0x11009, 4, false),
        (0x11000, 5, false),
        (0x11000, 6, true),
        (0, 0x20000, true),
    ] {
        let got = fires(rt.alloc(), Point::Store { address, len })?;
        assert!(rt; got == want, "at {address} for {len}");
    }
    Ok(())
}

#[test]
fn fires_in_the_order_of_the_script(rt: HostRuntime) -> Result<(), Fail> {
    let here = Point::Addr(0x10010);
    let entry = Point::Enter(0x10010);
    let there = Point::Addr(0x10014);
    let range = Point::Store {
        address: 0x11005,
        len: 1,
    };
    let out = firing(rt.alloc(), [here, here, entry])?;
    assert!(rt; out.as_slice() == [0, 1, 2].as_slice());
    let out = firing(rt.alloc(), [here, range, entry])?;
    assert!(rt; out.as_slice() == [0, 1, 2].as_slice());
    let out = firing(rt.alloc(), [range, there, here])?;
    assert!(rt; out.as_slice() == [0, 2].as_slice());
    Ok(())
}

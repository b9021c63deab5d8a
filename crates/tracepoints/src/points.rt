//! The points of a script.

ghost use Rattle.std.specs.Prelude.{◌≡◌, ℕ, ◌+◌, ◌<◌, ◌≤◌, ◌||◌, [], length, All, is_some};
ghost use Rattle.std.specs.Prelude.{IfOk, IfSome};
ghost use Rattle.std.specs.List.{list_any, range_with_len};
ghost use Rattle.rv_machine.specs.Machine.{state_of};
ghost use Rattle.tracer_lang.specs.Limits.{FitsPoint};
ghost use Rattle.tracer_lang.specs.Script.{tree_of};
ghost use Rattle.tracer_lang.specs.Firing.{points_of, is_among, fires_at, firing};
ghost use Rattle.tracepoints.specs.Chains.{chain_at, first_of, firing_at};

use crate::chain::{WATCHED, chain_at, chain_of, earlier};
use crate::fired::Fired;
use page_frames::Frames;
use rv_machine::{Machine, store_of};
use sl_base::{Memory, Seq};
use std::alloc::Global;
use std::marker::Model;
use tracer_lang::{Point, Script};

/// Whether two ranges of bytes, neither of them empty, have one in common. They do not wrap.
fn overlaps(address: u32, len: u32, at: u32, width: u8) -> bool
    requires len { 1 ≤ len }
    requires width { 1 ≤ width }
    ensures { result ≡ list_any (is_among address len) (range_with_len at width) }
{
    let address = u64::from(address);
    let at = u64::from(at);
    address < at + u64::from(width) && at < address + u64::from(len)
}

/// Whether a point fires where pc is an address and the instruction there is this store or none.
fn fires_at(pc: u32, at: Option<(u32, u8)>, point: Point) -> bool
    requires point { FitsPoint point }
    requires width { IfSome at (λ store. 1 ≤ store.1) }
    ensures { result ≡ fires_at pc at point }
{
    match point {
        Point::Addr(address) | Point::Enter(address) => pc == address,
        Point::Store { address, len } => match at {
            Some((at, width)) => overlaps(address, len, at, width),
            None => false,
        },
    }
}

/// The points of a script's tracepoints, chained by their numbers: each chain leads from its first
/// point to the last one, in the order of the script.
#[derive(Drop)]
pub struct Points {
    points: Seq<Point>,
    /// The number of the first point of each chain.
    heads: [Option<u8>; 4097],
    /// For each point the number of the next one of its chain.
    next: [Option<u8>; 64],
}

impl Model for Points {
    ghost use Rattle.std.specs.Prelude.{List};
    ghost use Rattle.tracer_lang.specs.declared.tree.Point.{Point};

    ghost Value = { List Point };

    ghost view = { λ a. a.points };

    ghost use Rattle.tracepoints.specs.Fields.{AreFields};

    ghost invariant = { AreFields };
}

impl Points {
    /// The points of a script.
    ///
    /// # Errors
    ///
    /// Want of memory.
    pub fn new(alloc: Global, script: &Script) -> Result<Points, Memory>
        ensures { IfOk result (λ points. points ≡ points_of (tree_of script.now)) }
    {
        let mut points = Seq::new(alloc);
        for tracepoint in script.tracepoints.as_slice() {
            points.push(tracepoint.point)?;
        }
        Ok(Points::chained(points))
    }

    /// Puts points onto their chains, from the last point on, so that each comes before those that
    /// stand there.
    fn chained(points: Seq<Point>) -> Points
        requires few { length points ≤ 64 }
        requires fit { All FitsPoint points }
        ensures { result ≡ points }
    {
        let mut heads = [None; 4097];
        let mut next = [None; 64];
        for index in (0..points.len()).rev() {
            let chain = chain_of(points.as_slice()[index]);
            next[index] = heads[chain];
            heads[chain] = Some(index as u8);
        }
        Points {
            points,
            heads,
            next,
        }
    }

    /// The number of the first point of a chain.
    #[inline(always)]
    fn first(&self, chain: usize) -> Option<u8>
        requires { chain ≤ WATCHED }
        ensures { result ≡ first_of self.now 0 chain }
    {
        self.heads[chain]
    }

    /// Where a chain goes on behind a point, which may be one of its own or not.
    fn past(&self, at: Option<u8>, index: u8) -> Option<u8>
        requires { index < length self.now }
        ensures { (chain : ℕ) → at ≡ first_of self.now index chain
            → result ≡ first_of self.now (index + 1) chain }
    {
        if at == Some(index) {
            self.next[index as usize]
        } else {
            at
        }
    }

    /// Whether a range is watched.
    #[inline(always)]
    fn watches(&self) -> bool
        ensures { result ≡ is_some (first_of self.now 0 WATCHED) }
    {
        self.first(WATCHED).is_some()
    }

    /// Whether a point may fire where pc is an address.
    #[inline(always)]
    fn may_fire(&self, pc: u32) -> bool
        ensures { result ≡ is_some (first_of self.now 0 (chain_at pc))
            || is_some (first_of self.now 0 WATCHED) }
    {
        self.first(chain_at(pc)).is_some() || self.watches()
    }

    /// Which tracepoints fire before the instruction at pc, by their numbers, in the order of the
    /// script.
    #[inline(always)]
    pub fn fires(&self, m: &Machine, f: &Frames, out: &mut Fired)
        ensures { out.new ≡ firing self.now (state_of m.now f.now.pages) }
    {
        out.clear();
        if self.may_fire(m.pc) {
            self.look(m, f, out);
        }
    }

    /// The same. The instruction is read only where a range is watched.
    #[inline(never)]
    fn look(&self, m: &Machine, f: &Frames, out: &mut Fired)
        requires { out.old ≡ [] }
        ensures { out.new ≡ firing self.now (state_of m.now f.now.pages) }
    {
        let store = if self.watches() { store_of(m, f) } else { None };
        self.walk(m.pc, store, out);
    }

    /// Follows the chain of pc, and beside it, where the instruction is a store, that of the
    /// watched ranges, always to the earlier one of their points.
    fn walk(&self, pc: u32, store: Option<(u32, u8)>, out: &mut Fired)
        requires empty { out.old ≡ [] }
        requires width { IfSome store (λ store. 1 ≤ store.1) }
        ensures { out.new ≡ firing_at self.now pc store }
    {
        let mut at = self.first(chain_at(pc));
        let mut watched = match store {
            Some(_) => self.first(WATCHED),
            None => None,
        };
        while let Some(index) = earlier(at, watched) {
            if fires_at(pc, store, self.points.as_slice()[index as usize]) {
                out.push(u32::from(index));
            }
            at = self.past(at, index);
            watched = self.past(watched, index);
        }
    }
}

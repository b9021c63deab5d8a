//! The segments that were loaded so far.

use crate::image::Segment;
use sl_base::Seq;
use std::alloc::{AllocError, Global};
use std::collections::BTreeMap;
use std::marker::Model;

/// Segments that take memory and share no byte, with the end of each by its start. It is seen as
/// the list of them.
#[derive(Drop)]
pub struct Loaded {
    segments: Vec<Segment>,
    ends: BTreeMap<u32, u32>,
}

impl Model for Loaded {
    ghost use Rattle.std.specs.Prelude.{List};
    ghost use Rattle.elf_image.specs.declared.image.Segment.{Segment};

    ghost Value = { List Segment };

    ghost use Rattle.elf_image.specs.Ranges.{AreEnds};

    ghost view = { λ l. l.segments.items };

    ghost invariant = { λ l. AreEnds l.ends l.segments.items };
}

impl Loaded {
    ghost use Rattle.std.specs.Prelude.{◌≡◌, ◌+◌, ◌<◌, ◌^◌, [], ◌∷◌, ◌++◌, false, OnOk};
    ghost use Rattle.std.specs.List.{list_any};
    ghost use Rattle.elf_image.specs.Segments.{has_byte_in};

    pub fn new(alloc: Global) -> Loaded
        ensures { result ≡ [] }
    {
        Loaded {
            segments: Vec::new(alloc),
            ends: BTreeMap::new(alloc),
        }
    }

    /// Whether a segment has a byte from one address up to before another.
    pub fn has_byte_in(&self, start: u32, end: u32) -> bool
        ensures { result ≡ list_any (has_byte_in start end) self.now }
    {
        // Of the segments that start before the end, the last reaches furthest.
        match self.ends.range(..end).next_back() {
            Some((_, reached)) => start < *reached,
            None => false,
        }
    }

    /// Adds a segment that takes memory and shares no byte with those before.
    pub fn push(&mut self, segment: Segment) -> Result<(), AllocError>
        requires takes { 0 < segment.memsz }
        requires fits { segment.vaddr + segment.memsz < 2 ^ 32 }
        requires apart { list_any (has_byte_in segment.vaddr (segment.vaddr + segment.memsz))
            self.old ≡ false }
        ensures { OnOk result (self.new ≡ self.old ++ segment ∷ []) }
    {
        self.segments.reserve(1)?;
        self.ends
            .insert(segment.vaddr, segment.vaddr + segment.memsz)?;
        self.segments.push(segment).unwrap();
        Ok(())
    }

    pub fn into_segments(self) -> Seq<Segment>
        ensures { result ≡ self }
    {
        Seq::from_vec(self.segments)
    }
}

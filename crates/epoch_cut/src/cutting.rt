ghost use Rattle.std.specs.Prelude.{◌≡◌, ◌≤◌, ◌<◌, ◌↔◌, IsTrue, IfOk, min};
ghost use Rattle.std.specs.List.Sorted.{IsStrictlyIncreasing};
ghost use Rattle.std.specs.Option.{SomeIff};
ghost use Rattle.epoch_cut.specs.Places.{IsCutting, even_places};

use sl_base::Memory;
use std::alloc::Global;
use std::marker::Model;

/// Places between segments, from 0 to the number of segments, each above the one before it. The
/// epochs run from each place to the next. It is seen as the list of the places.
#[derive(Debug, Drop)]
pub struct Cutting {
    places: Vec<u32>,
}

impl Model for Cutting {
    ghost use Rattle.std.specs.Prelude.{List, ℕ};

    ghost Value = { List ℕ };

    ghost use Rattle.epoch_cut.specs.Places.{IsCutting, last_place};

    ghost view = { λ c. c.places.items };

    ghost invariant = { λ c. IsCutting (last_place c.places.items) c.places.items };
}

impl Cutting {
    ghost use Rattle.std.specs.Prelude.{◌≡◌};
    ghost use Rattle.epoch_cut.specs.Places.{IsCutting, last_place};

    /// The places.
    pub fn places(&self) -> &[u32]
        ensures value { result.now ≡ self.now }
        ensures cutting { IsCutting (last_place self.now) self.now }
    {
        self.places.as_slice()
    }
}

/// Cuts into as many epochs as asked for, or into one for each segment where there are fewer of
/// these. Each place is its share of the segments, rounded down.
pub fn cut(alloc: Global, segments: u32, epochs: u32) -> Result<Cutting, Memory>
    requires segments { (1 ≤ segments) × (segments ≤ 4096) }
    requires epochs { (1 ≤ epochs) × (epochs ≤ 4096) }
    ensures places { IfOk result (λ cutting. cutting ≡ even_places segments (min segments epochs)) }
    ensures cutting { IfOk result (IsCutting segments) }
{
    let parts = segments.min(epochs);
    let mut places = Vec::new(alloc);
    for j in 0..parts + 1 {
        places.push(j * segments / parts)?;
    }
    Ok(Cutting { places })
}

/// Whether each number is above the one before it.
fn is_rising(list: &[u32]) -> bool
    ensures { IsTrue result ↔ IsStrictlyIncreasing list.now }
{
    for i in 1..list.len() {
        if list[i] <= list[i - 1] {
            return false;
        }
    }
    true
}

fn is_cutting(list: &[u32], segments: u32) -> bool
    ensures { IsTrue result ↔ IsCutting segments list.now }
{
    list.first() == Some(&0) && list.last() == Some(&segments) && is_rising(list)
}

/// The cutting with these places; `None` exactly where they cut no such number of segments.
pub fn from_list(alloc: Global, list: &[u32], segments: u32) -> Result<Option<Cutting>, Memory>
    ensures { IfOk result (λ cutting. SomeIff cutting (IsCutting segments list.now) list.now) }
{
    if !is_cutting(list, segments) {
        return Ok(None);
    }
    let places = Vec::from_slice(alloc, list)?;
    Ok(Some(Cutting { places }))
}

//! The labels of a source.

use crate::place::{Label, Spot};
use sl_base::Seq;
use std::alloc::{AllocError, Global};
use std::collections::BTreeMap;
use std::marker::Model;

/// Labels in order, with the spot of the first at each name. They are seen as the list.
#[derive(Drop)]
pub struct Labels<'a> {
    all: Vec<Label>,
    spots: BTreeMap<&'a [u8], Spot>,
    doubled: Option<u32>,
}

impl<'a> Model for Labels<'a> {
    ghost use Rattle.std.specs.Prelude.{List};
    ghost use Rattle.rv_asm.specs.declared.place.Label.{Label};

    ghost Value = { List Label };

    ghost use Rattle.rv_asm.specs.Labels.{AreKept};

    ghost view = { λ l. l.all.items };

    ghost invariant = { λ l. AreKept l.spots l.doubled l.all.items };
}

impl<'a> Labels<'a> {
    ghost use Rattle.std.specs.Prelude.{◌≡◌, ◌<◌, ◌^◌, [], ◌∷◌, ◌++◌, OnOk, IfSome};
    ghost use Rattle.rv_asm.specs.Labels.{doubled_line, spot_named};

    pub fn new(alloc: Global) -> Labels<'a>
        ensures { result ≡ [] }
    {
        Labels {
            all: Vec::new(alloc),
            spots: BTreeMap::new(alloc),
            doubled: None,
        }
    }

    /// Where the first label with a name stands.
    pub fn spot_named(&self, name: &[u8]) -> Option<Spot>
        ensures value { result ≡ spot_named name.now self.now }
        ensures near { IfSome result (λ spot. spot.offset < 2 ^ 62) }
    {
        self.spots.get(name).copied()
    }

    /// The line of the first label whose name an earlier one has.
    pub fn doubled_line(&self) -> Option<u32>
        ensures { result ≡ doubled_line self.now }
    {
        self.doubled
    }

    /// Adds a label at the end.
    pub fn add(
        &mut self,
        alloc: Global,
        name: &'a [u8],
        spot: Spot,
        line: u32,
    ) -> Result<(), AllocError>
        requires { spot.offset < 2 ^ 62 }
        ensures { OnOk result (self.new
            ≡ self.old ++ record { name = name.now; spot = spot; line = line } ∷ []) }
    {
        let label = Label {
            name: Seq::from_vec(Vec::from_slice(alloc, name)?),
            spot,
            line,
        };
        self.all.reserve(1)?;
        if self.spots.contains_key(name) {
            self.doubled = self.doubled.or(Some(line));
        } else {
            self.spots.insert(name, spot)?;
        }
        self.all.push(label).unwrap();
        Ok(())
    }

    /// The labels in order.
    pub fn into_labels(self) -> Vec<Label>
        ensures { result.items ≡ self.entry }
    {
        self.all
    }
}

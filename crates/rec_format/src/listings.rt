//! The listings of pages that were read so far.

use crate::recording::ListedPage;
use std::alloc::{AllocError, Global};
use std::collections::BTreeMap;
use std::marker::Model;

/// A listing of a page, with its bytes where they stand in the file.
#[derive(Clone, Copy)]
pub struct Listing<'a> {
    pub number: u32,
    pub bytes: &'a [u8],
}

/// Listings in order, and for each page the index of its last one. It is seen as the list.
#[derive(Drop)]
pub struct Listings<'a> {
    all: Vec<Listing<'a>>,
    last: BTreeMap<u32, usize>,
}

impl<'a> Model for Listings<'a> {
    ghost use Rattle.std.specs.Prelude.{List};
    ghost use Rattle.rec_format.specs.declared.recording.ListedPage.{ListedPage};

    ghost Value = { List ListedPage };

    ghost use Rattle.rec_format.specs.Listings.{seen, IsIndex};

    ghost view = { λ l. seen l.all.items };

    ghost invariant = { λ l. IsIndex l.last l.all.items };
}

impl<'a> Listings<'a> {
    ghost use Rattle.std.specs.Prelude.{◌≡◌, [], ◌∷◌, ◌++◌, OnOk, option_copied};
    ghost use Rattle.rec_format.specs.Rules.{last_listed};

    pub fn new(alloc: Global) -> Listings<'a>
        ensures { result ≡ [] }
    {
        Listings {
            all: Vec::new(alloc),
            last: BTreeMap::new(alloc),
        }
    }

    /// The bytes of the last listing of a page.
    pub fn last(&self, number: u32) -> Option<&'a [u8]>
        ensures { option_copied result ≡ last_listed number self.now }
    {
        let index = self.last.get(&number)?;
        let listing = self.all.get(*index)?;
        Some(listing.bytes)
    }

    /// Adds a listing at the end.
    pub fn add(&mut self, number: u32, bytes: &'a [u8]) -> Result<(), AllocError>
        ensures { OnOk result
            (self.new ≡ self.old ++ record { number = number; bytes = bytes.now } ∷ []) }
    {
        self.all.reserve(1)?;
        self.last.insert(number, self.all.len())?;
        self.all.push(Listing { number, bytes }).unwrap();
        Ok(())
    }
}

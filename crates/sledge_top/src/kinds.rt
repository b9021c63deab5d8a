//! The analyses that words of the command line name.

ghost use Rattle.std.specs.Prelude.{◌≡◌, IfErr};
ghost use Rattle.sl_base.specs.Refusals.{Gives};
ghost use Rattle.cli_words.specs.Views.{words_view};
ghost use Rattle.sledge_top.specs.Kinds.{kinds_of};
ghost use Rattle.sledge_top.specs.Endings.{IsLaterFault};

use analysers::{Kind, read_kind};
use report::Refusal;
use sl_base::{Refused, Seq};
use std::alloc::Global;

/// The analyses that words name, in their order, or the position of the first word that names none,
/// from 1.
pub fn kinds_of(alloc: Global, words: &[&str]) -> Result<Seq<Kind>, Refused<Refusal>>
    ensures value { Gives (λ kinds. kinds) result (kinds_of (words_view words.now)) }
    ensures later { IfErr result IsLaterFault }
{
    let mut kinds = Seq::new(alloc);
    for (i, word) in words.iter().enumerate() {
        let Some(kind) = read_kind(alloc, word)? else {
            return Err(Refused::Fault(Refusal::AnalysisRefused(i as u64 + 1)));
        };
        kinds.push(kind)?;
    }
    Ok(kinds)
}

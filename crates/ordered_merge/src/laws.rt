//! What the merge of values means: nothing is computed here.

ghost use Rattle.std.specs.Prelude.{◌≡◌, ◌↔◌, ℕ, List, Ok, Err};
ghost use Rattle.std.specs.List.{flat_map};
ghost use Rattle.call_log.specs.declared.breaks.Break.{Break};
ghost use Rattle.analysers.specs.declared.kind.Kind.{Kind};
ghost use Rattle.analysers.specs.declared.merged.Merged.{Merged};
ghost use Rattle.analysers.specs.Pieces.{merged_of};
ghost use Rattle.epoch_core.specs.declared.post.PostValue.{PostValue as Value};
ghost use Rattle.ordered_merge.specs.Merged.{merged, records_in, BreaksFirstAt, NoneBroke};

/// A law: the merge is a break exactly where that is the break of the first epoch that broke, and
/// it is what the analyses give of the records of all epochs in order exactly where none broke.
pub fn merged_means()
    ensures broke { (kinds : List Kind) (values : List Value) (first : Break)
        → (merged kinds values ≡ Err first) ↔ ((k : ℕ) × BreaksFirstAt values k first) }
    ensures ran { (kinds : List Kind) (values : List Value) (whole : Merged)
        → (merged kinds values ≡ Ok whole)
        ↔ (NoneBroke values × (whole ≡ merged_of kinds (flat_map records_in values))) }
{}

//! Laws of analyses: nothing is computed here. A crate above calls one where its proof needs it.

ghost use Rattle.std.specs.Prelude.{◌≡◌, List, [], ◌++◌, fold};
ghost use Rattle.tracer_lang.specs.declared.record.Record.{Record};
ghost use Rattle.analysers.specs.Parts.{folded};
ghost use Rattle.analysers.specs.Streams.{told_along, open_after, unopened};
ghost use Rattle.std.specs.Prelude.{ℕ, ◌%◌, ◌^◌, length, sum, Option, slice_get, None, Some};
ghost use Rattle.std.specs.List.{last_or};
ghost use Rattle.analysers.specs.declared.part.Bin.{Bin};
ghost use Rattle.analysers.specs.declared.part.Part.TheVariants as part;
ghost use Rattle.analysers.specs.declared.trees.TreeKind.TheVariants as tree;
ghost use Rattle.analysers.specs.declared.kind.KindOf.{KindOf};
ghost use Rattle.analysers.specs.Analyses.{part_of_all};
ghost use Rattle.analysers.specs.declared.kind.KindOf.TheVariants as kind;
ghost use Rattle.analysers.specs.Analyses.{analyse};
ghost use Rattle.analysers.specs.StreamMeanings.{AreRowsOf, IsRise, IsChange, IsUnopened, IsUnclosed};
ghost use Rattle.analysers.specs.declared.row.Row.{Row};
ghost use Rattle.analysers.specs.Kinds.{kind_of};
ghost use Rattle.analysers.specs.Plain.{IsPlain};
ghost use Rattle.analysers.specs.Meanings.{words_at, IsLeast, IsGreatest, IsHistogram};

use crate::stream::Stream;
use crate::tree::Tree;

/// A law: wherever a list of records is cut, its fold is the join of the folds of the two pieces.
pub fn folds_join<T: Tree>()
    ensures { (tree : T) (front back : List Record)
        → folded (T.empty tree) (T.single tree) (T.joined tree) (front ++ back)
        ≡ T.joined tree (folded (T.empty tree) (T.single tree) (T.joined tree) front)
        (folded (T.empty tree) (T.single tree) (T.joined tree) back) }
{}

/// A law: wherever a list of records is cut, a stream that is fed the one piece and then the other
/// tells what it tells where it is fed the whole list, and comes to the same state.
pub fn streams_go_on<S: Stream>()
    ensures rows { (stream : S) (s : S.State) (front back : List Record)
        → told_along (S.after stream) (S.told stream) s (front ++ back)
        ≡ told_along (S.after stream) (S.told stream) s front
        ++ told_along (S.after stream) (S.told stream) (fold (S.after stream) s front) back }
    ensures state { (stream : S) (s : S.State) (front back : List Record)
        → fold (S.after stream) s (front ++ back)
        ≡ fold (S.after stream) (fold (S.after stream) s front) back }
{}

/// A law: what the one fold of each tree kind is, in plain words. The words are those at the place,
/// of the records that have one there.
pub fn trees_mean()
    ensures count { (rs : List Record)
        → part_of_all tree.Count rs ≡ part.Count (length rs % 2 ^ 64) }
    ensures sum { (place : ℕ) (rs : List Record)
        → part_of_all (tree.Sum place) rs ≡ part.Sum (sum (words_at place rs) % 2 ^ 64) }
    ensures least { (place : ℕ) (rs : List Record) → (word : Option ℕ)
        × (part_of_all (tree.Least place) rs ≡ part.Least word)
        × IsLeast (words_at place rs) word }
    ensures greatest { (place : ℕ) (rs : List Record) → (word : Option ℕ)
        × (part_of_all (tree.Greatest place) rs ≡ part.Greatest word)
        × IsGreatest (words_at place rs) word }
    ensures hist { (place : ℕ) (rs : List Record) → (bins : List Bin)
        × (part_of_all (tree.Hist place) rs ≡ part.Hist bins)
        × IsHistogram (words_at place rs) bins }
    ensures first { (rs : List Record)
        → part_of_all tree.First rs ≡ part.First (slice_get rs 0) }
    ensures last { (rs : List Record)
        → part_of_all tree.Last rs ≡ part.Last (last_or None rs) }
{}

/// A law: which records the streams tell, in plain words. `at_once` says that a record that closes
/// nothing is told as it is fed: of every list of records, so also of the records up to any one.
pub fn streams_mean()
    ensures rising { (place : ℕ) (rs : List Record)
        → AreRowsOf (IsRise place rs) rs (analyse (kind.Rising place) rs) }
    ensures changes { (place : ℕ) (rs : List Record)
        → AreRowsOf (IsChange place rs) rs (analyse (kind.Changes place) rs) }
    ensures open { (opens closes : ℕ) (rs : List Record) → (first : List Row) × (last : List Row)
        × (analyse (kind.Open opens closes) rs ≡ first ++ last)
        × AreRowsOf (IsUnopened opens closes rs) rs first
        × AreRowsOf (IsUnclosed opens closes rs) rs last }
    ensures at_once { (opens closes : ℕ) (rs : List Record)
        → AreRowsOf (IsUnopened opens closes rs) rs
        (told_along (open_after opens closes) (unopened opens closes) [] rs) }
{}

/// A law: a word that names an analysis stands in a table of comma-separated values as it is, since
/// it has no comma, quote or line's end.
pub fn kinds_are_plain()
    ensures { (word : List ℕ) (what : KindOf) → kind_of word ≡ Some what → IsPlain word }
{}

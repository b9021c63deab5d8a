//! Laws of the commands, each the contract of a function that does nothing.

ghost use Rattle.std.specs.Prelude.{◌≡◌, List, ℕ};
ghost use Rattle.outside.specs.Files.{Files};
ghost use Rattle.cli_words.specs.Working.{DifferInWork};
ghost use Rattle.epoch_core.specs.declared.post.Post.{Post as Posting};
ghost use Rattle.epoch_run.specs.declared.plan.Plan.{Plan as Planned};
ghost use Rattle.sledge_top.specs.Answer.{outcome, OutcomeAnswers};
ghost use Rattle.sledge_top.specs.Accepted.{RecordingsAreAccepted};
ghost use Rattle.sledge_top.specs.Headline.{TracesAreOneRun, TracesComplete};
ghost use Rattle.sledge_top.specs.Merging.{PostsMerge};

use epoch_run::values_are_the_run;
use ordered_merge::merged_means;
use outside::World;

/// The headline. Where a call with the words of `trace` ends with status 0 it wrote exactly the
/// report of one run, which replays from the first instruction on and runs each tracer on a copy
/// of the machine where it fires. A broken recording is refused at the first break of that run.
pub fn traces_are_one_run<W: World>()
    ensures { TracesAreOneRun W.hears }
{}

/// Lists of words that are accepted and differ in `--workers` and `--epochs` alone have one outcome,
/// whatever the files are.
pub fn same_answer()
    ensures { (first second : List (List ℕ)) (files : Files) → DifferInWork first second
        → outcome first files ≡ outcome second files }
{}

/// A trace of accepted words, over files that hold a recording that replays without a break and a
/// script of its image, ends with status 0, or out of memory, or by a fault of the store or of the
/// first output whose count rose.
pub fn traces_complete<W: World>()
    ensures { TracesComplete W.hears }
{}

/// A command that records no run ends as its words and the files come to, says it, and leaves the
/// files so: its answer is the one that they name alone.
pub fn answers_are_outcomes<W: World>()
    ensures { (words : List (List ℕ)) → OutcomeAnswers W.hears words }
{}

/// What the command that records puts is a recording that the other commands accept: it is read
/// again, replays without a break, and cut anew by the same distance has the same bytes.
pub fn recordings_are_accepted<W: World>()
    ensures { RecordingsAreAccepted W.hears }
{}

/// One post for each epoch of a plan, in any order: the least that broke has the first break of the
/// one run, and where none broke they merge to the analyses over the records of the run.
pub fn posts_merge()
    ensures { (plan : Planned) (posts : List Posting) → PostsMerge plan posts }
{
    values_are_the_run();
    merged_means();
}

//! Laws of the definitions, each the contract of a function that does nothing.

ghost use Rattle.std.specs.Prelude.{List, ℕ};
ghost use Rattle.sl_model.specs.Pages.{Pages, ArePages};
ghost use Rattle.sl_model.specs.State.{State};
ghost use Rattle.sl_model.specs.Bank.{HaveOneProgram, IsBankMemory, copied_words};
ghost use Rattle.sl_model.specs.Undo.{UndoEntry, undone};
ghost use Rattle.undo_bank.specs.Areas.{Areas, AreAreas, IsProgram, IsMadeFrom, IsStarted, areas_over};

/// A bank that is made from the words of a tracer and started with the copies of a machine makes,
/// over the memory of that machine, the memory in which the tracer starts.
pub fn started_banks_are_ready()
    ensures { (words : List ℕ) (s : State) (areas : Areas) → AreAreas areas
        → IsMadeFrom words areas → IsStarted (copied_words s) areas
        → IsProgram s.pages → ArePages s.pages
        → IsBankMemory words s (areas_over areas s.pages) }
{}

/// The entries of a log that are put back into a program's memory alone leave the same program as
/// those that are put back into it with a bank above it, whatever they name.
pub fn undoing_needs_no_bank()
    ensures { (log : List UndoEntry) (areas : Areas) (pages : Pages) → IsProgram pages
        → HaveOneProgram (undone log (areas_over areas pages)) (undone log pages) }
{}

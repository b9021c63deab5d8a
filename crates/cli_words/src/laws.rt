//! A law of words.

ghost use Rattle.std.specs.Prelude.{◌≡◌, List, ℕ};
ghost use Rattle.std.specs.Option.{option_map};
ghost use Rattle.cli_words.specs.Orders.{order_of};
ghost use Rattle.cli_words.specs.Working.{DifferInWork, worked_alone};

/// Lists of words that are accepted and differ in `--workers` and `--epochs` alone name commands that
/// differ in the numbers of workers and epochs alone.
pub fn work_stands_apart()
    ensures { (first second : List (List ℕ)) → DifferInWork first second
        → option_map worked_alone (order_of first) ≡ option_map worked_alone (order_of second) }
{}

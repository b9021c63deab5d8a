//! Laws of tokens.

ghost use Rattle.tracer_text.specs.Runs.{TokensAreLongestRuns};

/// Each token is a longest run of bytes of names and numbers, or one byte that is of none.
pub fn tokens_are_longest_runs()
    ensures { TokensAreLongestRuns }
{}

//! The law of a session's text. The function does nothing: its contract is the law.
ghost use Rattle.std.specs.Prelude.{◌≡◌, ℕ, List};
ghost use Rattle.ivl_calculator_lines.specs.Session.{IsWholeSessionText};

/// The same lines have one text, unless a command is refused as out of memory.
pub fn texts_are_determined()
    ensures { (lines : List (List ℕ)) (text other : List ℕ) → IsWholeSessionText lines text → IsWholeSessionText lines other → text ≡ other }
{}

//! What a program that reads lines is asked for by its arguments.
ghost use Rattle.std.specs.Prelude.{◌≡◌, option_map};
ghost use Rattle.ivl_lines.specs.Arguments.{started_by};

/// What the arguments of a program ask for.
#[derive(Clone, Copy, Debug, PartialEq, Eq)]
pub enum Start {
    /// No argument: to answer lines.
    Lines,
    /// `--help`: which lines are understood.
    Help,
    /// `--version`: the version.
    Version,
    /// Anything else, which no program understands.
    Other,
}

/// Returns what a program is asked for, from its first argument and whether there are more. `O(1)`.
/// Does not allocate.
///
/// ```
/// assert_eq!(rt; start_of(None, false), Start::Lines);
/// assert_eq!(rt; start_of(Some("--help"), false), Start::Help);
/// assert_eq!(rt; start_of(Some("--help"), true), Start::Other);
/// ```
pub fn start_of(first: Option<&str>, has_more: bool) -> Start
    // The result is what the arguments ask for: `Lines` without any, `Help`, `Version`, or `Other`.
    ensures { result ≡ started_by (option_map (λ word. word.now) first.entry) has_more }
{
    match first {
        None => Start::Lines,
        Some("--help") if !has_more => Start::Help,
        Some("--version") if !has_more => Start::Version,
        Some(_) => Start::Other,
    }
}

//! How far domains are narrowed.

/// How far the lines so far have narrowed the domains.
#[derive(Clone, Copy)]
pub enum Progress {
    /// No rule narrows a domain any further.
    Complete,
    /// The last line that narrows used up its narrowings.
    Budget,
}

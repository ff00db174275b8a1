//! How answers are written.

/// How an answer is written.
#[derive(Clone, Copy, Debug, PartialEq, Eq)]
pub enum Style {
    /// In lines, for people.
    Lines,
    /// As one document of JSON, for programs.
    Json,
}

// The kinds of files whose lines may be refused.

/// What a file is for.
#[derive(Clone, Copy)]
pub enum FileKind {
    /// Definitions, or the site over them.
    Configuration,
    /// A script.
    Script,
}

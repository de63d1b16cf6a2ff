// How a connection was opened in the history.

/// How a connection was opened in the history, or why not. In each case but the first a Stop stands then.
#[derive(Clone, Copy)]
pub(crate) enum Opening {
    /// It was.
    Opened,
    /// A Stop stood.
    Stopped,
    /// The history is full.
    Full,
    /// No memory was found.
    NoMemory,
}

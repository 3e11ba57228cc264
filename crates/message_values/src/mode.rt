//! Which functions there are.

/// What the program serves, by which the editor's functions go.
#[derive(Clone, Copy, Debug, PartialEq, Eq)]
pub enum Mode {
    /// A session.
    Serve,
    /// A session in which the messages say who works on what.
    Replay,
    /// A build of theories, once.
    Build,
}

//! What came of a commit.

/// What came of a commit.
#[derive(Clone, Copy)]
pub enum Committed {
    /// The steps happened, and the thread was given back. Whether somebody was looked for behind them.
    Taken { looked: bool },
    /// Fewer steps are left than these, and more than none: so many. The thread is where it was.
    TooMany(u32),
    /// They were refused, and the thread was given back.
    Lost,
}

//! How the program writes.

/// For whom it writes.
#[derive(Clone, Copy, PartialEq, Eq)]
pub enum Look {
    /// A person at a terminal: what changed is bold.
    Terminal,

    /// A program, or a file: there is no bold.
    Plain,
}

/// Whether it tells how long searches took.
#[derive(Clone, Copy, PartialEq, Eq)]
pub enum Times {
    Told,
    Untold,
}

/// How a picture is to look.
#[derive(Clone, Copy)]
pub struct Style {
    pub look: Look,

    /// How many characters a line has.
    pub width: usize,
}

impl Look {
    /// What begins and ends something that changed.
    pub fn marks(self) -> (&'static str, &'static str) {
        match self {
            Look::Terminal => ("\x1b[1m", "\x1b[0m"),
            Look::Plain => ("", ""),
        }
    }
}

//! How grave a line is.

ghost use Rattle.std.specs.Prelude.{◌≡◌};
ghost use Rattle.mac_log.specs.Level.{level_word, priority_text};

/// How grave what happened is.
#[derive(Clone, Copy, Debug, PartialEq, Eq)]
pub enum Level {
    /// The daemon can't do what it was asked to.
    Error,
    /// It goes on, and somebody should look.
    Warning,
    /// Nothing is wrong.
    Info,
}

impl Level {
    /// The word that a line has for it.
    pub fn word(self) -> &'static str
        ensures { result.now ≡ level_word self }
    {
        match self {
            Level::Error => "error",
            Level::Warning => "warning",
            Level::Info => "info",
        }
    }

    /// What stands in front of a line that goes to systemd's journal: syslog's number of the level
    /// (`sd-daemon(3)`).
    pub fn priority(self) -> &'static str
        ensures { result.now ≡ priority_text self }
    {
        match self {
            Level::Error => "<3>",
            Level::Warning => "<4>",
            Level::Info => "<6>",
        }
    }
}

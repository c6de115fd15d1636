//! Parses the arguments into a command: what kind of file the page shows. Changes nothing.
ghost use Rattle.std.specs.Prelude.{◌≡◌, map, string_bytes};
ghost use Rattle.av1_view.specs.Commands.{command_of, named};

/// What the program shows.
#[derive(Clone, Copy, Debug, PartialEq, Eq)]
pub enum ViewCommand {
    /// A plan.
    Plan,
    /// A trace: a plan, and its planes from another encoder.
    Trace,
    /// A sequence of frames, each predicted from those before it.
    Sequence,
    /// A grid of tiles.
    Tiles,
}

impl ViewCommand {
    /// The command of the arguments, if they are valid.
    pub fn from_words(words: &[String]) -> Option<ViewCommand>
        ensures { result ≡ command_of (map string_bytes words.now) }
    {
        match words {
            [] => Some(ViewCommand::Plan),
            [word] => ViewCommand::named(word.as_str()),
            _ => None,
        }
    }

    // The command of this name.
    #[tactic(auto, unfolding(crate::specs::Commands::named))]
    fn named(name: &str) -> Option<ViewCommand>
        ensures { result ≡ named name.now }
    {
        if name == "trace" {
            return Some(ViewCommand::Trace);
        }
        if name == "sequence" {
            return Some(ViewCommand::Sequence);
        }
        if name == "tiles" {
            return Some(ViewCommand::Tiles);
        }
        None
    }
}

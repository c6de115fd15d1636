//! Finds the tool that the argument names. Changes nothing.
ghost use Rattle.std.specs.Prelude.{◌≡◌, map, string_bytes};
ghost use Rattle.av1_toolbox.specs.Tools.{named, tool_of};

/// What a tool does with the bytes that it reads.
#[derive(Clone, Copy, Debug, PartialEq, Eq)]
pub enum Tool {
    /// Reconstructs a grid of tiles.
    Tiles,
    /// Compares the planes of another encoder with a plan.
    Trace,
    /// Reconstructs a sequence of frames, each predicted from those before it.
    Sequence,
    /// Writes a plan without its coefficients: only its predictions.
    Bare,
}

impl Tool {
    /// The tool of the arguments. There has to be one argument, and it has to be a tool's name.
    pub fn from_words(words: &[String]) -> Option<Tool>
        ensures { result ≡ tool_of (map string_bytes words.now) }
    {
        match words {
            [word] => Tool::named(word.as_str()),
            _ => None,
        }
    }

    // The tool of this name.
    #[tactic(auto, unfolding(crate::specs::Tools::named))]
    fn named(name: &str) -> Option<Tool>
        ensures { result ≡ named name.now }
    {
        if name == "tiles" {
            return Some(Tool::Tiles);
        }
        if name == "trace" {
            return Some(Tool::Trace);
        }
        if name == "sequence" {
            return Some(Tool::Sequence);
        }
        if name == "bare" {
            return Some(Tool::Bare);
        }
        None
    }
}

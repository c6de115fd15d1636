//! Parses the arguments after the program's name into a command. Changes nothing.
ghost use Rattle.std.specs.Prelude.{◌≡◌, map, string_bytes};
ghost use Rattle.av1_recon.specs.Commands.{named, command_of};

use crate::number_of;

/// What the program should do.
#[derive(Clone, Copy, Debug, PartialEq, Eq)]
pub enum Command {
    /// Read a plan and write its planes.
    Reconstruct,
    /// Write the plan of a number.
    Make(u32),
    /// Reconstruct the plan of a number, and write four lines on it.
    Sum(u32),
}

impl Command {
    /// The command of the arguments after the program's name, if they are a valid command.
    pub fn from_words(words: &[String]) -> Option<Command>
        ensures { result ≡ command_of (map string_bytes words.now) }
    {
        match words {
            [] => Some(Command::Reconstruct),
            [name, word] => Command::named(name.as_str(), number_of(word.as_str())?),
            _ => None,
        }
    }

    // The command of this name that has a number.
    #[tactic(auto, unfolding(crate::specs::Commands::named))]
    fn named(name: &str, number: u32) -> Option<Command>
        ensures { result ≡ named name.now number }
    {
        if name == "make" {
            return Some(Command::Make(number));
        }
        if name == "sum" {
            return Some(Command::Sum(number));
        }
        None
    }
}

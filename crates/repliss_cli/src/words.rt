//! The command that the words ask for.

ghost use Rattle.std.specs.Prelude.{◌≡◌};
ghost use Rattle.std.specs.Option.{option_map};
ghost use Rattle.repliss_cli.specs.Words.{asked, is_option, program_file};
ghost use Rattle.repliss_cli.specs.means.Commands.{command_view};

/// A command, with the names of its files.
#[derive(Clone, Copy)]
pub enum Command<'a> {
    /// Verifies a program.
    Verify(&'a str),
    /// Replays the schedule of the second file on the program of the first.
    Replay(&'a str, &'a str),
}

impl<'a> Command<'a> {
    /// The name of the program's file.
    pub fn program(self) -> &'a str
        ensures { result.now ≡ program_file (command_view self.entry) }
    {
        match self {
            Command::Verify(file) => file,
            Command::Replay(file, _) => file,
        }
    }
}

/// Whether the word is an option.
fn is_option(word: &str) -> bool
    ensures { result ≡ is_option word.now }
{
    word.as_bytes().first() == Some(&b'-')
}

/// The command that the words ask for.
pub fn command_of(words: &[String]) -> Option<Command>
    ensures { option_map command_view result ≡ asked words.now }
{
    match words {
        [_, verb, file] if verb.as_str() == "verify" && !is_option(file) => {
            Some(Command::Verify(file.as_str()))
        }
        [_, verb, file, schedule]
            if verb.as_str() == "replay" && !is_option(file) && !is_option(schedule) => Some(
            Command::Replay(file.as_str(), schedule.as_str()),
        ),
        _ => None,
    }
}

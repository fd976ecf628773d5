ghost use Rattle.std.specs.Prelude.{◌≡◌};
ghost use Rattle.job.specs.Spelling.{letter_of};

use path::command::Command;

/// The letter by which a job tells a command.
// A function, since `From` between types of other crates can't stand here.
pub fn command_letter(command: Command) -> char
    ensures { result ≡ letter_of command }
{
    match command {
        Command::MoveTo(_) => 'M',
        Command::LineTo(_) => 'L',
        Command::CurveTo(_, _, _) => 'C',
        Command::QuadTo(_, _) => 'Q',
        Command::Close => 'Z',
    }
}

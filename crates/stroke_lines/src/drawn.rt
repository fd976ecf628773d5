ghost use Rattle.std.specs.Prelude.{◌≡◌};
ghost use Rattle.lines.specs.Printing.{text_of};
ghost use Rattle.lines.specs.Streams.{Writes};
ghost use Rattle.stroke_lines.specs.Drawn.{answer_line, drawn_lines};

use lines::line::PrintedLine;
use lines::printing::{print, print_all};
use path::command::Command;
use path::refusal::Refusal;
use std::io;
use std::io::Write;
use stroke::tally::Tally;

/// Prints a line for each command that a stroke left in a list, and the line of its answer. Where it
/// fails a front of them was written.
pub fn print_drawn<W: Write>(
    writer: &mut W,
    commands: &[Command],
    answer: Result<Tally, Refusal>,
) -> io::Result<()>
    ensures { Writes (W.contents writer.old) (W.contents writer.new) result
        (text_of (drawn_lines commands.now answer)) }
{
    print_all(writer, commands)?;
    print(writer, answer_line(answer))
}

fn answer_line(answer: Result<Tally, Refusal>) -> PrintedLine
    ensures { result ≡ answer_line answer }
{
    match answer {
        Ok(Tally { sent, steps }) => PrintedLine::Drawn { sent, steps },
        Err(refusal) => PrintedLine::Refused(refusal),
    }
}

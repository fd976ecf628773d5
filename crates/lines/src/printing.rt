ghost use Rattle.std.specs.Prelude.{◌≡◌, [], ◌∷◌, ◌++◌, map, IfOk, IfSome};
ghost use Rattle.lines.specs.Listing.{command_line, dash_line};
ghost use Rattle.lines.specs.Printing.{text_of};
ghost use Rattle.lines.specs.Streams.{Writes};

use crate::line::PrintedLine;
use crate::writing::write_text;
use arrayvec::ArrayString;
use job::item::Item;
use path::command::Command;
use std::fmt::{Display, Write as _};
use std::io::Write;
use std::{fmt, io};

/// What has a line of its own.
pub trait AsLine: Copy {
    ghost use Rattle.lines.specs.declared.line.PrintedLine.{PrintedLine};

    ghost line_of: { Self → PrintedLine };

    fn line(self) -> PrintedLine
        ensures { result ≡ line_of self };
}

impl AsLine for PrintedLine {
    ghost line_of = { λ l. l };

    fn line(self) -> PrintedLine {
        self
    }
}

impl AsLine for Command {
    ghost line_of = { command_line };

    fn line(self) -> PrintedLine {
        PrintedLine::Item(Item::Path(self))
    }
}

/// A bare number is one of a row of dashes.
impl AsLine for f32 {
    ghost line_of = { dash_line };

    fn line(self) -> PrintedLine {
        PrintedLine::Item(Item::Dash(self))
    }
}

/// Prints a value and a line break. Where it fails a front of them was written; so it does where they
/// are longer than 64 bytes.
pub fn println<W: Write, D: Display + Drop>(writer: &mut W, value: D) -> io::Result<()>
    ensures { IfSome (D.output value) (λ text.
        Writes (W.contents writer.old) (W.contents writer.new) result
        (text ++ (10 ∷ []))) }
{
    let Ok(text) = shown(value) else {
        return Err(io::Error::from(fmt::Error));
    };
    write_text(writer, text.as_str().as_bytes())
}

/// Prints a line. Where it fails a front of it was written.
#[tactic(auto, using(crate::proofs::Growing::one_line))]
pub fn print<W: Write>(writer: &mut W, line: PrintedLine) -> io::Result<()>
    ensures { Writes (W.contents writer.old) (W.contents writer.new) result (text_of (line ∷ [])) }
{
    println(writer, line)
}

/// Prints the lines of a row, one after the other. Where it fails a front of them was written.
#[tactic(auto, unfolding(crate::specs::Printing::text_of))]
pub fn print_all<W: Write, T: AsLine>(writer: &mut W, row: &[T]) -> io::Result<()>
    ensures { Writes (W.contents writer.old) (W.contents writer.new) result
        (text_of (map T.line_of row.now)) }
{
    for x in row {
        print(writer, x.line())?;
    }
    Ok(())
}

// The longest line has six numbers, and 56 bytes.
fn shown<D: Display + Drop>(value: D) -> Result<ArrayString<64>, fmt::Error>
    ensures { IfSome (D.output value) (λ shown.
        IfOk result (λ text. text.bytes ≡ shown ++ (10 ∷ []))) }
{
    let mut text = ArrayString::new();
    writeln!(text, "{value}")?;
    Ok(text)
}

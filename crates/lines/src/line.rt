ghost use Rattle.std.specs.Prelude.{Some};
ghost use Rattle.std.specs.Fmt.{WritesOnOk};
ghost use Rattle.lines.specs.Text.{command_text, item_text, line_text};

use crate::bits::{Bits, PointBits};
use job::item::Item;
use path::command::Command;
use path::refusal::Refusal;
use std::fmt;

/// One printed line.
#[derive(Clone, Copy, PartialEq)]
pub enum PrintedLine {
    /// An item of a job.
    Item(Item),
    /// How many commands and dashes a job holds.
    Held { commands: usize, dashes: usize },
    /// How many commands a stroke sent, and how many dash steps it took.
    Drawn { sent: u64, steps: u32 },
    /// A refusal.
    Refused(Refusal),
}

impl fmt::Display for PrintedLine {
    ghost output = { λ l. Some (line_text l) };

    fn fmt<W: fmt::Write>(&self, f: &mut fmt::Formatter<W>) -> fmt::Result {
        match *self {
            PrintedLine::Item(item) => write_item(item, f),
            PrintedLine::Held { commands, dashes } => write!(f, "= {commands} {dashes}"),
            PrintedLine::Drawn { sent, steps } => write!(f, "= {sent} {steps}"),
            PrintedLine::Refused(r) => write!(f, "! {} {} {}", u8::from(r.reason), r.place, r.sent),
        }
    }
}

// A function, since `Display` can't be given here to a type of another crate.
fn write_item<W: fmt::Write>(item: Item, f: &mut fmt::Formatter<W>) -> fmt::Result
    ensures { WritesOnOk W.Write.write_str_gives f.old result (item_text item) f.new }
{
    match item {
        Item::Width(x) => write!(f, "W {}", Bits(x)),
        Item::Join(join) => write!(f, "J {}", u8::from(join)),
        Item::MiterLimit(x) => write!(f, "I {}", Bits(x)),
        Item::StartCap(shape) => write!(f, "S {}", u8::from(shape)),
        Item::EndCap(shape) => write!(f, "E {}", u8::from(shape)),
        Item::Offset(x) => write!(f, "O {}", Bits(x)),
        Item::Dash(x) => write!(f, "D {}", Bits(x)),
        Item::Path(command) => write_command(command, f),
    }
}

// The same.
fn write_command<W: fmt::Write>(c: Command, f: &mut fmt::Formatter<W>) -> fmt::Result
    ensures { WritesOnOk W.Write.write_str_gives f.old result (command_text c) f.new }
{
    match c {
        Command::MoveTo(p) => write!(f, "M {}", PointBits(p)),
        Command::LineTo(p) => write!(f, "L {}", PointBits(p)),
        Command::CurveTo(a, b, p) => {
            write!(f, "C {} {} {}", PointBits(a), PointBits(b), PointBits(p))
        }
        Command::QuadTo(a, p) => write!(f, "Q {} {}", PointBits(a), PointBits(p)),
        Command::Close => write!(f, "Z"),
    }
}

ghost use Rattle.std.specs.Prelude.{◌≡◌, T, length};
ghost use Rattle.std.specs.List.{slice_get};
ghost use Rattle.path.specs.declared.command.Command.{Command};
ghost use Rattle.path.specs.declared.command.Command.TheVariants.{MoveTo, LineTo, CurveTo, Close};
ghost use Rattle.path.specs.Kinds.{kind};
ghost use Rattle.sinks.specs.Meaning.{SinkActs, takes, joined, verdict, after};

use path::command::Command;
use path::geometry::Point;

/// The sink has fewer units left than the command's price.
#[derive(Clone, Copy, PartialEq, Eq)]
pub struct Refused;

/// A sink takes commands. It means its list of commands, the units that it has left, the price of
/// each kind of command, and the map that a command goes through before it joins the list. Price and
/// map are fixed, and the map keeps a command's kind. A command is refused exactly where its price
/// exceeds the units left, and the sink is unaltered then.
pub trait Sink {
    ghost acts: { SinkActs Self };

    fn send(&mut self, c: Command) -> Result<(), Refused>
        ensures answer { result ≡ verdict (acts.meaning self.old) c }
        ensures after { self.new ≡ after acts self.old c };

    // The Rust's four calls, each of its own command.
    fn move_to(&mut self, p: Point) -> Result<(), Refused>
        ensures answer { result ≡ verdict (acts.meaning self.old) (MoveTo p) }
        ensures after { self.new ≡ after acts self.old (MoveTo p) }
    {
        self.send(Command::MoveTo(p))
    }

    fn line_to(&mut self, p: Point) -> Result<(), Refused>
        ensures answer { result ≡ verdict (acts.meaning self.old) (LineTo p) }
        ensures after { self.new ≡ after acts self.old (LineTo p) }
    {
        self.send(Command::LineTo(p))
    }

    fn curve_to(&mut self, a: Point, b: Point, p: Point) -> Result<(), Refused>
        ensures answer { result ≡ verdict (acts.meaning self.old) (CurveTo a b p) }
        ensures after { self.new ≡ after acts self.old (CurveTo a b p) }
    {
        self.send(Command::CurveTo(a, b, p))
    }

    fn close(&mut self) -> Result<(), Refused>
        ensures answer { result ≡ verdict (acts.meaning self.old) Close }
        ensures after { self.new ≡ after acts self.old Close }
    {
        self.send(Command::Close)
    }

    ghost kept: { (s : Self) (c : Command) → kind ((acts.meaning s).map c) ≡ kind c };

    ghost grows: { (s : Self) (c : Command) → T (takes (acts.meaning s) c) → acts.meaning (acts.took s c) ≡ joined (acts.meaning s) c };
}

/// A sink whose list can be read back.
pub trait ReadableSink: Sink {
    fn len(&self) -> usize
        ensures { result ≡ length (Self.acts.meaning self.now).list };

    /// The command at a place, none past the end.
    fn get(&self, i: usize) -> Option<Command>
        ensures { result ≡ slice_get (Self.acts.meaning self.now).list i };
}

ghost use Rattle.std.specs.Prelude.{◌≡◌, List, is_some};
ghost use Rattle.std.specs.Option.{option_flatten};
ghost use Rattle.maths.specs.Functions.{Functions};
ghost use Rattle.path.specs.declared.command.Command.{Command};
ghost use Rattle.cursor.specs.Cursors.{seen, rest, fresh};
ghost use Rattle.cursor.specs.Giving.{next_of};
ghost use Rattle.cursor.specs.Laws.{GivesHead, LawfulDrawing};
ghost use Rattle.cursor.specs.Machines.{done, step, waits};

use crate::walk::Segments;
use crate::walk::machine::Machine;
use curves::curve::Curve;
use lists::lent::element;
use maths::host::MathsHost;
use path::command::Command;
use segments::segment::Segment;

impl Segments {
    /// A cursor before the first command. What it will give for any commands and any host: at most
    /// 17 things for a command, none marked 255, in runs that the ends divide.
    pub fn new(split: bool) -> Segments
        ensures machine { seen result ≡ fresh split }
        ensures place { result.place ≡ 0 }
        ensures lawful { (F : Functions) (cs : List Command) → LawfulDrawing F split cs }
    {
        Segments {
            machine: Machine::new(split),
            place: 0,
        }
    }

    // One step: the end to come, the next piece or the next command, whichever is first. None where
    // nothing is to come.
    #[inline(always)]
    fn step<K: MathsHost>(&mut self, commands: &[Command], host: &mut K) -> Option<Option<Segment>>
        ensures waits { is_some result ≡ waits (seen self.old) (rest self.old commands.now) }
        ensures whole { record { gave = option_flatten result; after = seen self.new; place = self.new.place; host = host.new } ≡ done K.acts.asked self.old.place host.old (step (K.acts.functions host.old) (seen self.old) (rest self.old commands.now)) }
    {
        let from = self.machine.subpath.prev;
        match (
            self.machine.close,
            element(self.machine.pieces.as_slice(), self.machine.piece),
            element(commands, self.place),
        ) {
            (true, _, _) => Some(self.machine.end()),
            (false, Some(curve), _) => {
                self.machine.piece += 1;
                Some(self.machine.later_piece(curve))
            }
            (false, None, Some(Command::MoveTo(to))) => {
                self.place += 1;
                Some(self.machine.move_to(to))
            }
            (false, None, Some(Command::LineTo(to))) => {
                self.place += 1;
                Some(self.machine.line_to(to))
            }
            (false, None, Some(Command::CurveTo(b, c, to))) => {
                self.place += 1;
                Some(self.machine.curve_to(Curve::new(from, b, c, to), to, host))
            }
            (false, None, Some(Command::QuadTo(b, to))) => {
                self.place += 1;
                Some(
                    self.machine
                        .curve_to(Curve::from_quadratic(from, b, to), to, host),
                )
            }
            (false, None, Some(Command::Close)) => {
                self.place += 1;
                Some(self.machine.close())
            }
            (false, None, None) => None,
        }
    }

    /// The next line, curve or end, or none after the last command. The commands are those of the
    /// earlier calls; the host is asked where a curve is cut.
    #[inline(always)]
    pub fn next<K: MathsHost>(&mut self, commands: &[Command], host: &mut K) -> Option<Segment>
        ensures whole { record { gave = result; after = seen self.new; place = self.new.place; host = host.new } ≡ done K.acts.asked self.old.place host.old (next_of (K.acts.functions host.old) (seen self.old) (rest self.old commands.now)) }
        ensures head { GivesHead (K.acts.functions host.old) (seen self.old) (rest self.old commands.now) result (seen self.new) (rest self.new commands.now) }
    {
        // a step may give nothing while something is still to come
        while let Some(given) = self.step(commands, host) {
            if given.is_some() {
                return given;
            }
        }
        None
    }
}

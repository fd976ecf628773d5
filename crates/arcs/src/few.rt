ghost use Rattle.std.specs.Prelude.{◌≡◌};
ghost use Rattle.lists.specs.Fixed.{filled};
ghost use Rattle.path.specs.declared.command.Command.TheVariants.{Close};

use lists::fixed::FixedList;
use path::command::Command;

/// Up to four commands, in order.
pub type Few = FixedList<Command, 4>;

/// The first four of some commands, with a Close in every place after them.
#[inline(always)]
pub fn few(commands: &[Command]) -> Few
    ensures { result ≡ filled 4 Close commands.now }
{
    FixedList::filled(Command::Close, commands)
}

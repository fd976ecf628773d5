//! The commands that a sink took. They exist only in proofs: a history takes no memory, and its
//! functions do nothing at run time.
ghost use Rattle.std.specs.Prelude.{◌≡◌, List, [], ◌∷◌, ◌++◌};
ghost use Rattle.std.specs.Borrow.{ftrue};
ghost use Rattle.std.specs.Coded.{coded_list};
ghost use Rattle.path.specs.declared.command.Command.{Command};
ghost use Rattle.path.specs.contracts.command.Command as command;

use path::command::Command;
use std::marker::Model;

#[derive(Drop)]
pub(crate) struct History {
    ghost commands: { List Command } by { coded_list command.the_row.coded },
}

impl Model for History {
    ghost also_owns = { λ _. ftrue };
}

impl History {
    pub(crate) fn new() -> History
        ensures { result.commands ≡ [] }
    {
        History {}
    }

    // With a command more.
    pub(crate) fn and(&self, _command: &Command) -> History
        ensures { result.commands ≡ self.now.commands ++ (_command.now ∷ []) }
    {
        History {}
    }
}

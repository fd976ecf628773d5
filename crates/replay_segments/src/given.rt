ghost use Rattle.std.specs.Prelude.{◌≡◌, IfOk};
ghost use Rattle.std.specs.Iterator.{YieldsFirst, item_count};
ghost use Rattle.maths.specs.Tables.{tabled};
ghost use Rattle.cursor.specs.Drawings.{drawn_whole, given_by};
ghost use Rattle.replay_segments.specs.Coming.{to_come};

use cursor::walk::Segments;
use maths::table::{Row, TableHost};
use path::command::Command;
use segments::segment::Segment;
use std::alloc::{AllocError, Global};

// A cursor with the commands that it reads, and a host that answers by rows.
#[derive(Drop)]
struct Given<'a> {
    cursor: Segments,
    commands: &'a [Command],
    host: TableHost<'a>,
}

impl Iterator for Given<'_> {
    type Item = Segment;

    ghost next_gives = { YieldsFirst to_come };

    ghost remaining = { item_count to_come };

    fn next(&mut self) -> Option<Segment> {
        self.cursor.next(self.commands, &mut self.host)
    }
}

/// All that a cursor gives for the commands, with a host that answers by the rows.
pub(crate) fn segments_of(
    heap: Global,
    split: bool,
    commands: &[Command],
    rows: &[Row],
) -> Result<Vec<Segment>, AllocError>
    ensures { IfOk result (λ v. v.items ≡ given_by (drawn_whole (tabled rows.now) split commands.now)) }
{
    let given = Given {
        cursor: Segments::new(split),
        commands,
        host: TableHost::new(rows),
    };
    given.collect(heap)
}

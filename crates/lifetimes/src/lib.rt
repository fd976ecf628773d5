//! Code that holds to the lifetimes of a record list. `must-not-compile` has the edits that break them.
#![tactic(auto)]

ghost use Rattle.std.specs.Prelude.{◌≡◌, Some, ltb, length, if◌then◌else◌, slice_set};

use path::command::Command;
use sinks::record_list::RecordList;
use sinks::sink::{Refused, Sink};

/// Two lists over the same places, one after the other: the second one writes over what the first one
/// held.
pub fn send_again(places: &mut [Command], first: Command, second: Command) -> Result<(), Refused>
    ensures answer { result ≡ (if ltb 0 (length places.old) then Ok tt else Err (record {})) }
    ensures places { places.new ≡ slice_set (slice_set places.old 0 first) 0 second }
{
    let mut list = RecordList::new(places);
    let _ = list.send(first);
    let mut again = RecordList::new(places);
    again.send(second)
}

/// A list that was ended takes nothing more: a new one over the same places does.
pub fn send_after_finish(first: Command, second: Command) -> Option<Command>
    ensures { result ≡ Some second }
{
    let mut places = [Command::Close; 1];
    let mut list = RecordList::new(&mut places);
    let _ = list.send(first);
    let _held = list.finish();
    let mut anew = RecordList::new(&mut places);
    let _ = anew.send(second);
    anew.get(0)
}

/// The places are written only once what the list showed is no longer read.
pub fn write_after_reading(places: &mut [Command; 2], command: Command) -> usize
    ensures count { result ≡ 1 }
    ensures places { places.new ≡ slice_set (slice_set places.old 0 command) 1 command }
{
    let mut list = RecordList::new(places);
    let _ = list.send(command);
    let held = list.as_slice();
    let n = held.len();
    places[1] = command;
    n
}

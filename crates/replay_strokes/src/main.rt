//! Replays many strokes, one after the other, and prints what `replay` prints for each.
#![tactic(auto)]

use crate::records::Records;
use lines::printing::println;
use std::io;
use std::io::Read;
use stroke_lines::replay::replay_setting;
use stroke_lines::setting::Setting;

mod records;

fn main(rt: HostRuntime) -> io::Result<()> {
    let mut bytes = Vec::new(rt.alloc());
    rt.stdin().read_to_end(&mut bytes)?;
    for record in Records::new(&bytes) {
        match Setting::read(record) {
            Ok(setting) => replay_setting(rt.alloc(), &mut rt.stdout(), setting)?,
            Err(why) => return println(&mut rt.stdout(), why),
        }
    }
    Ok(())
}

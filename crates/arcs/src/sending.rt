ghost use Rattle.std.specs.Prelude.{◌≡◌};
ghost use Rattle.arcs.specs.LoneArcs.{refused, sending, sent_answer};
ghost use Rattle.path.specs.declared.refusal.Reason.TheVariants.{SinkRefused};

use path::command::Command;
use path::refusal::{Reason, Refusal};
use sinks::sink::Sink;

fn refused_after(sent: u64) -> Refusal
    ensures { result ≡ refused SinkRefused sent }
{
    Refusal {
        reason: Reason::SinkRefused,
        place: 0,
        sent,
    }
}

// Each command in order, up to the first refusal; answers how many the sink took.
pub(crate) fn send_all<S: Sink>(commands: &[Command], sink: &mut S) -> Result<u64, Refusal>
    ensures answer { result ≡ sent_answer (sending S.acts commands.now sink.old 0) }
    ensures sink { sink.new ≡ (sending S.acts commands.now sink.old 0).sink }
{
    let mut sent = 0;
    for c in commands {
        if sink.send(*c).is_err() {
            return Err(refused_after(sent));
        }
        sent += 1;
    }
    Ok(sent)
}

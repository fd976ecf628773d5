ghost use Rattle.std.specs.Prelude.{◌≡◌, ◌≤◌, ◌∷◌, List, length, take};
ghost use Rattle.dashes.specs.StepCounts.{most_steps};
ghost use Rattle.storage.specs.Meaning.{held_acts, empty_held, held_by};
ghost use Rattle.stroke.specs.Calls.{stroke_actions};
ghost use Rattle.stroke.specs.Counts.{counted};
ghost use Rattle.stroke.specs.Histories.{Call, call, History, Lawful, Promised, after_taking, count, row_of};
ghost use Rattle.stroke.specs.Outcomes.{answer_of, at_start, outcome, perform, request, stroked};
ghost use Rattle.stroke.specs.Strokers.{stop_of};

use crate::counted::Counted;
use crate::limits::admit;
use crate::stroker::Stroker;
use crate::tally::Tally;
use dashes::pattern::Pattern;
use maths::host::MathsHost;
use path::command::Command;
use path::refusal::{Reason, Refusal};
use path::style::Stroke;
use pen::pen::Pen;
use sinks::sink::Sink;
use storage::storage::Storage;
use storage::storage128::Storage128;

/// Strokes a path into a sink, with dashes where they are a pattern, and answers how many commands the
/// sink took and how many dash steps were taken. Each run of segments is held in the storage while it is
/// drawn, and what the storage holds and can hold is all that counts of it.
///
/// The limits are asked about first, and a refusal then alters nothing. While drawing, the first segment
/// that the storage refuses, the first step past the budget, or the first command that the sink refuses
/// ends the call; what was sent before stays and is counted.
///
/// `lawful` is the law of all strokes on one sink.
pub fn stroke_with_storage<S: Sink, B: Storage, K: MathsHost>(
    commands: &[Command],
    style: Stroke,
    dashes: &[f32],
    budget: u32,
    sink: &mut S,
    storage: &mut B,
    host: &mut K,
) -> Result<Tally, Refusal>
    ensures whole { record {
      answer = result;
      sink = sink.new;
      storage = storage.new;
      host = host.new;
    }
        ≡ stroked S.acts B.acts K.acts (request commands.now style dashes.now budget)
        sink.old storage.old host.old }
    ensures seen { let o = stroked S.acts held_acts K.acts
        (request commands.now style dashes.now budget)
        sink.old (held_by B.acts storage.old) host.old in
        (result ≡ o.answer) × (sink.new ≡ o.sink) × (host.new ≡ o.host) }
    ensures functions { K.acts.functions host.new ≡ K.acts.functions host.old }
    ensures promised { Promised
        (call commands.now style dashes.now (K.acts.functions host.old)
        (B.acts.capacity storage.old) budget result)
        (S.acts.meaning sink.old) (S.acts.meaning sink.new) }
    ensures took { let c = call commands.now style dashes.now (K.acts.functions host.old)
        (B.acts.capacity storage.old) budget result in
        sink.new ≡ after_taking S.acts (take (count result) (row_of c)) sink.old }
    ensures lawful { (earlier : List Call) → History earlier (S.acts.meaning sink.old) → Lawful
        (call commands.now style dashes.now (K.acts.functions host.old)
        (B.acts.capacity storage.old) budget result ∷ earlier)
        (S.acts.meaning sink.new) }
{
    admit_and_draw(commands, style, dashes, budget, sink, storage, host)
}

/// Strokes a path likewise, with a storage of 128 segments of its own.
pub fn stroke_into<S: Sink, K: MathsHost>(
    commands: &[Command],
    style: Stroke,
    dashes: &[f32],
    budget: u32,
    sink: &mut S,
    host: &mut K,
) -> Result<Tally, Refusal>
    ensures whole { let o = stroked S.acts held_acts K.acts
        (request commands.now style dashes.now budget)
        sink.old (empty_held 128) host.old in
        (result ≡ o.answer) × (sink.new ≡ o.sink) × (host.new ≡ o.host) }
    ensures functions { K.acts.functions host.new ≡ K.acts.functions host.old }
    ensures promised { Promised
        (call commands.now style dashes.now (K.acts.functions host.old) 128 budget result)
        (S.acts.meaning sink.old) (S.acts.meaning sink.new) }
    ensures took { let c = call commands.now style dashes.now (K.acts.functions host.old) 128
        budget result in
        sink.new ≡ after_taking S.acts (take (count result) (row_of c)) sink.old }
    ensures lawful { (earlier : List Call) → History earlier (S.acts.meaning sink.old) → Lawful
        (call commands.now style dashes.now (K.acts.functions host.old) 128 budget result
        ∷ earlier)
        (S.acts.meaning sink.new) }
{
    let mut storage = Storage128::new();
    stroke_with_storage(commands, style, dashes, budget, sink, &mut storage, host)
}

// The questions first, and then the drawing.
#[tactic(auto, unfolding(crate::specs::Outcomes::stroked, crate::specs::Outcomes::perform))]
fn admit_and_draw<S: Sink, B: Storage, K: MathsHost>(
    commands: &[Command],
    style: Stroke,
    dashes: &[f32],
    budget: u32,
    sink: &mut S,
    storage: &mut B,
    host: &mut K,
) -> Result<Tally, Refusal>
    ensures { record {
      answer = result;
      sink = sink.new;
      storage = storage.new;
      host = host.new;
    }
        ≡ stroked S.acts B.acts K.acts (request commands.now style dashes.now budget)
        sink.old storage.old host.old }
{
    admit(commands, style, dashes, budget)?;
    draw_counted(commands, style, dashes, budget, sink, storage, host)
}

// Onto a layer that counts what the sink takes.
fn draw_counted<S: Sink, B: Storage, K: MathsHost>(
    commands: &[Command],
    style: Stroke,
    dashes: &[f32],
    budget: u32,
    sink: &mut S,
    storage: &mut B,
    host: &mut K,
) -> Result<Tally, Refusal>
    requires few { length commands.now ≤ 4096 }
    requires budget { budget ≤ most_steps }
    ensures { record {
      answer = result;
      sink = sink.new;
      storage = storage.new;
      host = host.new;
    }
        ≡ outcome (perform (counted S.acts) B.acts K.acts budget
        (stroke_actions (K.acts.functions host.old) commands.now style dashes.now)
        (at_start (sink.old, 0) storage.old host.old)) }
{
    let mut counted = Counted::new(sink);
    let drawn = draw(commands, style, dashes, budget, &mut counted, storage, host);
    answer(counted.sent, drawn)
}

// How a drawing ended: the steps taken, the ends read, and why it stopped, if it did.
#[derive(Clone, Copy)]
struct Drawn {
    steps: u32,
    ended: usize,
    answer: Result<(), Reason>,
}

// A sink that is lent to a struct is not told apart where that struct was made, so this stands alone.
fn draw<'a, S: Sink, B: Storage, K: MathsHost>(
    commands: &[Command],
    style: Stroke,
    dashes: &[f32],
    budget: u32,
    sink: &'a mut S,
    storage: &'a mut B,
    host: &'a mut K,
) -> Drawn
    requires few { length commands.now ≤ 4096 }
    requires budget { budget ≤ most_steps }
    ensures { record {
      sink = sink.new;
      storage = storage.new;
      host = host.new;
      taken = result.steps;
      ended = result.ended;
      stop = stop_of result.answer;
    }
        ≡ perform S.acts B.acts K.acts budget
        (stroke_actions (K.acts.functions host.old) commands.now style dashes.now)
        (at_start sink.old storage.old host.old) }
{
    let pattern = Pattern::new(dashes, style.offset);
    let nib = Pen::new(style).nib();
    let mut stroker = Stroker::new(nib, budget, sink, storage, host);
    let answer = stroker.stroke(commands, pattern);
    Drawn {
        steps: stroker.steps.taken(),
        ended: stroker.ended,
        answer,
    }
}

// A refusal tells how many ends were read.
fn answer(sent: u64, drawn: Drawn) -> Result<Tally, Refusal>
    ensures { result ≡ answer_of sent drawn.steps drawn.ended (stop_of drawn.answer) }
{
    match drawn.answer {
        Ok(()) => Ok(Tally {
            sent,
            steps: drawn.steps,
        }),
        Err(reason) => Err(Refusal {
            reason,
            place: drawn.ended,
            sent,
        }),
    }
}

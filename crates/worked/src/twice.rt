ghost use Rattle.std.specs.Prelude.{◌≡◌, [], true, is_ok};
ghost use Rattle.storage.specs.Meaning.{held_acts, empty_held};
ghost use Rattle.stroke.specs.Outcomes.{request, stroked};

use maths::host::MathsHost;
use path::command::Command;
use path::refusal::Refusal;
use path::style::Stroke;
use sinks::sink::Sink;
use stroke::calls::stroke_into;
use stroke::tally::Tally;

// Two strokes of one path onto a sink. What a caller has of the law of strokes: on a sink that was
// empty both are answered alike, where both are accepted.
fn twice<S: Sink, K: MathsHost>(
    commands: &[Command],
    style: Stroke,
    dashes: &[f32],
    budget: u32,
    sink: &mut S,
    host: &mut K,
) -> (Result<Tally, Refusal>, Result<Tally, Refusal>)
    ensures whole { let q = request commands.now style dashes.now budget in
        let a = stroked S.acts held_acts K.acts q sink.old (empty_held 128) host.old in
        let b = stroked S.acts held_acts K.acts q a.sink (empty_held 128) a.host in
        (result.0 ≡ a.answer) × (result.1 ≡ b.answer) × (sink.new ≡ b.sink) × (host.new ≡ b.host) }
    ensures alike { (S.acts.meaning sink.old).list ≡ [] → is_ok result.0 ≡ true → is_ok result.1 ≡ true
        → result.0 ≡ result.1 }
{
    let first = stroke_into(commands, style, dashes, budget, sink, host);
    let second = stroke_into(commands, style, dashes, budget, sink, host);
    (first, second)
}

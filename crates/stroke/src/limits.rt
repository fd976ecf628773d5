ghost use Rattle.std.specs.Prelude.{◌≡◌};
ghost use Rattle.stroke.specs.Limits.{in_reach, point_in_reach, command_in_reach, first_out_of_reach, width_allowed, refused, or_refused, none_or_refused, admitted};

use path::command::Command;
use path::geometry::Point;
use path::refusal::{Reason, Refusal};
use path::style::Stroke;

const MOST_COMMANDS: usize = 4096;

const FARTHEST: f32 = 1048576.0;

const WIDEST: f32 = 4096.0;

const MOST_DASHES: usize = 32;

const MOST_STEPS: u32 = 65536;

fn in_reach(x: f32) -> bool
    ensures { result ≡ in_reach x }
{
    -FARTHEST <= x && x <= FARTHEST
}

fn point_in_reach(p: Point) -> bool
    ensures { result ≡ point_in_reach p }
{
    in_reach(p.x) && in_reach(p.y)
}

fn command_in_reach(command: Command) -> bool
    ensures { result ≡ command_in_reach command }
{
    match command {
        Command::MoveTo(p) | Command::LineTo(p) => point_in_reach(p),
        Command::CurveTo(b, c, p) => point_in_reach(b) && point_in_reach(c) && point_in_reach(p),
        Command::QuadTo(b, p) => point_in_reach(b) && point_in_reach(p),
        Command::Close => true,
    }
}

fn first_out_of_reach(commands: &[Command]) -> Option<usize>
    ensures { result ≡ first_out_of_reach commands.now }
{
    commands.iter().position(|c| !command_in_reach(*c))
}

fn width_allowed(width: f32) -> bool
    ensures { result ≡ width_allowed width }
{
    width.is_nan() || width <= WIDEST
}

fn refused(reason: Reason, place: usize) -> Result<(), Refusal>
    ensures { result ≡ refused reason place }
{
    Err(Refusal {
        reason,
        place,
        sent: 0,
    })
}

/// Asks whether a stroke of these commands may be drawn, and answers the first refusal: at most 4,096
/// commands, each coordinate from -1,048,576 to 1,048,576, a width of at most 4,096 or NaN, at most 32
/// dashes, a budget of at most 65,536 steps.
pub fn admit(
    commands: &[Command],
    style: Stroke,
    dashes: &[f32],
    budget: u32,
) -> Result<(), Refusal>
    ensures { result ≡ admitted commands.now style dashes.now budget }
{
    if commands.len() > MOST_COMMANDS {
        return refused(Reason::TooManyCommands, 0);
    }
    if let Some(place) = first_out_of_reach(commands) {
        return refused(Reason::CoordinateOutOfRange, place);
    }
    if !width_allowed(style.width) {
        return refused(Reason::WidthTooLarge, 0);
    }
    if dashes.len() > MOST_DASHES {
        return refused(Reason::TooManyDashes, 0);
    }
    if budget > MOST_STEPS {
        return refused(Reason::BudgetTooLarge, 0);
    }
    Ok(())
}

//! Strokes whose outcomes are worked out: what each is given, and one table of what comes of them.
#![tactic(auto)]

ghost use Rattle.std.specs.Prelude.{◌≡◌};
ghost use Rattle.worked.specs.Inputs.{commands_of, style_of, cap_of, offset_of, dashes_of, all};
ghost use Rattle.worked.specs.Table.{ByRuns, Table};

mod twice;

use path::command::Command;
use path::geometry::Point;
use path::style::{Cap, Join, Stroke};

/// A stroke of width 2 with bevel joins, from the origin on.
#[derive(Clone, Copy, PartialEq, Eq)]
pub enum Worked {
    /// Of a line of length 8.
    Line,
    /// Of a line of length 16, in dashes and gaps of 4.
    DashedLine,
    /// Of a closed square of side 8, in dashes of 12 and gaps of 4.
    DashedSquare,
    /// Of a close alone, with square caps.
    SquareDot,
    /// Of a close alone, with butt caps.
    ButtDot,
    /// Of two lines of length 8 with a right angle between them.
    Corner,
    /// As the dashed line, from 8 before the pattern's start.
    GapFirst,
    /// As the dashed line, from 8 into the pattern.
    DashFirst,
    /// Of a line of length 16, in dashes of 3 and 4 and gaps of 0 and 2.
    EmptyGap,
    /// Of a line of length 8, with dashes of 2 and gaps of 0.5, which are too short.
    ShortGap,
    /// Of a line of length 8, with 0.5 alone, which is too short.
    ShortAlone,
    /// Of a line of length 8, with 1 alone, as dash and as gap.
    OneAlone,
}

const ORIGIN: Point = Point { x: 0.0, y: 0.0 };

const RIGHT: Point = Point { x: 8.0, y: 0.0 };

const ACROSS: Point = Point { x: 8.0, y: 8.0 };

const LINE: [Command; 2] = [Command::MoveTo(ORIGIN), Command::LineTo(RIGHT)];

const LONG_LINE: [Command; 2] = [
    Command::MoveTo(ORIGIN),
    Command::LineTo(Point { x: 16.0, y: 0.0 }),
];

const CORNER: [Command; 3] = [
    Command::MoveTo(ORIGIN),
    Command::LineTo(RIGHT),
    Command::LineTo(ACROSS),
];

const SQUARE: [Command; 5] = [
    Command::MoveTo(ORIGIN),
    Command::LineTo(RIGHT),
    Command::LineTo(ACROSS),
    Command::LineTo(Point { x: 0.0, y: 8.0 }),
    Command::Close,
];

impl Worked {
    /// The path.
    #[tactic(auto, using(crate::proofs::Numbers::nought, crate::proofs::Numbers::eight, crate::proofs::Numbers::sixteen))]
    pub fn commands(self) -> &'static [Command]
        ensures { result.now ≡ commands_of self }
    {
        match self {
            Worked::Line | Worked::ShortGap | Worked::ShortAlone | Worked::OneAlone => &LINE,
            Worked::DashedLine | Worked::GapFirst | Worked::DashFirst | Worked::EmptyGap => {
                &LONG_LINE
            }
            Worked::DashedSquare => &SQUARE,
            Worked::SquareDot | Worked::ButtDot => &[Command::Close],
            Worked::Corner => &CORNER,
        }
    }

    /// The style.
    pub fn style(self) -> Stroke
        ensures { result ≡ style_of self }
    {
        Stroke {
            width: 2.0,
            join: Join::Bevel,
            start_cap: self.cap(),
            end_cap: self.cap(),
            offset: self.offset(),
            ..Stroke::default()
        }
    }

    fn cap(self) -> Cap
        ensures { result ≡ cap_of self }
    {
        match self {
            Worked::SquareDot => Cap::Square,
            _ => Cap::Butt,
        }
    }

    #[tactic(auto, using(crate::proofs::Numbers::minus_eight, crate::proofs::Numbers::eight))]
    fn offset(self) -> f32
        ensures { result ≡ offset_of self }
    {
        match self {
            Worked::GapFirst => -8.0,
            Worked::DashFirst => 8.0,
            _ => 0.0,
        }
    }

    /// The dashes and gaps.
    #[tactic(auto, using(crate::proofs::Numbers::nought, crate::proofs::Numbers::two, crate::proofs::Numbers::three, crate::proofs::Numbers::four, crate::proofs::Numbers::twelve))]
    pub fn dashes(self) -> &'static [f32]
        ensures { result.now ≡ dashes_of self }
    {
        match self {
            Worked::DashedLine | Worked::GapFirst | Worked::DashFirst => &[4.0, 4.0],
            Worked::DashedSquare => &[12.0, 4.0],
            Worked::EmptyGap => &[3.0, 0.0, 4.0, 2.0],
            Worked::ShortGap => &[2.0, 0.5],
            Worked::ShortAlone => &[0.5],
            Worked::OneAlone => &[1.0],
            Worked::Line | Worked::SquareDot | Worked::ButtDot | Worked::Corner => &[],
        }
    }
}

/// All of them. What comes of each is worked out in the table, and in another what
/// their runs define.
#[tactic(auto, using(crate::proofs::Table::table, crate::proofs::Table::by_runs))]
pub fn worked_strokes() -> [Worked; 12]
    ensures all { result ≡ all }
    ensures table { Table }
    ensures by_runs { ByRuns }
{
    [
        Worked::Line,
        Worked::DashedLine,
        Worked::DashedSquare,
        Worked::SquareDot,
        Worked::ButtDot,
        Worked::Corner,
        Worked::GapFirst,
        Worked::DashFirst,
        Worked::EmptyGap,
        Worked::ShortGap,
        Worked::ShortAlone,
        Worked::OneAlone,
    ]
}

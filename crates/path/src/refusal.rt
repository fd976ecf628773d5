ghost use Rattle.std.specs.Prelude.{◌≡◌};
ghost use Rattle.path.specs.Refusals.{number_of};
ghost use Rattle.path.specs.declared.refusal.Reason.TheVariants as reason_is;

use crate::style;

/// Why a call was refused. Each reason has a fixed number.
#[derive(Clone, Copy, PartialEq, Eq)]
pub enum Reason {
    /// There are more than 4,096 commands.
    TooManyCommands = 1,
    /// A coordinate does not lie from -1,048,576 to 1,048,576.
    CoordinateOutOfRange = 2,
    /// The width is above 4,096.
    WidthTooLarge = 3,
    /// There are more than 32 dashes.
    TooManyDashes = 4,
    /// The step budget is above 65,536.
    BudgetTooLarge = 5,
    /// The storage does not take another segment.
    StorageFull = 6,
    /// As many dash steps were taken as the budget allows.
    StepsSpent = 7,
    /// The sink does not take the command.
    SinkRefused = 8,
    /// A radius of the arc is 0.
    ZeroRadius = 9,
    /// A job's letter is none of the format's.
    UnknownLetter = 10,
    /// The job ends before the letter's operands do.
    MissingOperands = 11,
    /// A join or cap byte is above 2.
    UnknownShape = 12,
    /// The list that the item belongs to has no place left.
    ListFull = 13,
}

impl From<Reason> for u8 {
    ghost from_gives = { λ reason n. n ≡ number_of reason };

    fn from(reason: Reason) -> u8 {
        reason as u8
    }
}

impl From<style::UnknownShape> for Reason {
    ghost from_gives = { λ _ r. r ≡ reason_is.UnknownShape };

    fn from(_: style::UnknownShape) -> Reason {
        Reason::UnknownShape
    }
}

/// What a refused call answers: why, where, and how many commands its sink took before.
#[derive(Clone, Copy, PartialEq, Eq)]
pub struct Refusal {
    pub reason: Reason,
    pub place: usize,
    pub sent: u64,
}

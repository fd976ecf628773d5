ghost use Rattle.std.specs.Prelude.{◌≡◌, ◌+◌, ◌-◌, length, slice_index, MatchResult};
ghost use Rattle.job.specs.Reading.{float_at, point_at, read};
ghost use Rattle.job.specs.Operands.{Front};

use crate::float::float_of;
use crate::item::Item;
use path::command::Command;
use path::geometry::Point;
use path::refusal::Reason;
use path::style::{Cap, Join};

// The bytes after a letter: each call hands out the operand at their front.
#[derive(Drop)]
struct Operands<'a> {
    bytes: &'a [u8],
}

impl Operands<'_> {
    fn byte(&mut self) -> Result<u8, Reason>
        ensures { Front 1 (slice_index self.old.bytes.now 0)
            self.old.bytes.now self.new.bytes.now result }
    {
        let (first, rest) = self.bytes.split_first().ok_or(Reason::MissingOperands)?;
        self.bytes = rest;
        Ok(*first)
    }

    // A number has its high byte first.
    fn number(&mut self) -> Result<f32, Reason>
        ensures { Front 4 (float_at self.old.bytes.now 0)
            self.old.bytes.now self.new.bytes.now result }
    {
        let (word, rest) = self
            .bytes
            .split_first_chunk()
            .ok_or(Reason::MissingOperands)?;
        self.bytes = rest;
        Ok(float_of(u32::from_be_bytes(*word)))
    }

    fn point(&mut self) -> Result<Point, Reason>
        ensures { Front 8 (point_at self.old.bytes.now 0)
            self.old.bytes.now self.new.bytes.now result }
    {
        let x = self.number()?;
        let y = self.number()?;
        Ok(Point { x, y })
    }

    // The item that a letter says with its operands.
    fn item(&mut self, letter: u8) -> Result<Item, Reason>
        ensures { MatchResult result
            (λ i. read letter self.old.bytes.now
            ≡ Ok (i, 1 + length self.old.bytes.now - length self.new.bytes.now))
            (λ e. read letter self.old.bytes.now ≡ Err e) }
    {
        match letter as char {
            'W' => Ok(Item::Width(self.number()?)),
            'J' => Ok(Item::Join(Join::try_from(self.byte()?)?)),
            'I' => Ok(Item::MiterLimit(self.number()?)),
            'S' => Ok(Item::StartCap(Cap::try_from(self.byte()?)?)),
            'E' => Ok(Item::EndCap(Cap::try_from(self.byte()?)?)),
            'O' => Ok(Item::Offset(self.number()?)),
            'D' => Ok(Item::Dash(self.number()?)),
            'M' => Ok(Item::Path(Command::MoveTo(self.point()?))),
            'L' => Ok(Item::Path(Command::LineTo(self.point()?))),
            'C' => Ok(Item::Path(Command::CurveTo(self.point()?, self.point()?, self.point()?))),
            'Q' => Ok(Item::Path(Command::QuadTo(self.point()?, self.point()?))),
            'Z' => Ok(Item::Path(Command::Close)),
            _ => Err(Reason::UnknownLetter),
        }
    }
}

// The item of a letter and the bytes after it, and how many bytes it takes, the letter's among them.
pub(crate) fn read_item(letter: u8, bytes: &[u8]) -> Result<(Item, usize), Reason>
    ensures { result ≡ read letter bytes.now }
{
    let mut operands = Operands { bytes };
    let item = operands.item(letter)?;
    Ok((item, 1 + bytes.len() - operands.bytes.len()))
}

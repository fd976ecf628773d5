ghost use Rattle.std.specs.Prelude.{◌≡◌, length, MatchResult};
ghost use Rattle.job.specs.Reading.{first, Within};
ghost use Rattle.job.specs.Readers.{left, refusal, next_answer, next_reader};
ghost use Rattle.job.specs.Laws.{FindsSpelled, ReadsSpelled};

use crate::item::Item;
use crate::operands::read_item;
use crate::reader::JobReader;
use path::refusal::{Reason, Refusal};

impl JobReader<'_> {
    /// The next item, none at the end of the bytes. A refused reader stays at the letter.
    pub fn next(&mut self) -> Result<Option<Item>, Refusal>
        ensures answer { result ≡ next_answer self.old }
        ensures after { self.new ≡ next_reader self.old }
        ensures spelled { ReadsSpelled self.old result self.new }
    {
        let Some((item, size)) = self.item()? else {
            return Ok(None);
        };
        self.place += size;
        Ok(Some(item))
    }

    // The item at the place and the number of its bytes, none at the end. The reader stays.
    pub(super) fn item(&self) -> Result<Option<(Item, usize)>, Refusal>
        ensures value { MatchResult result (λ found. first (left self.now) ≡ Ok found)
            (λ r. (first (left self.now) ≡ Err r.reason) × (r ≡ refusal self.now r.reason)) }
        ensures spelled { FindsSpelled self.now (first (left self.now)) }
        ensures within { Within self.now.place (length self.now.bytes.now) (first (left self.now)) }
    {
        let Some(letter) = self.bytes.get(self.place) else {
            return Ok(None);
        };
        self.placed(read_item(*letter, &self.bytes[self.place + 1..]).map(Some))
    }

    // An answer whose reason becomes the refusal of the letter at the place.
    pub(super) fn placed<T>(&self, answer: Result<T, Reason>) -> Result<T, Refusal>
        ensures { MatchResult result (λ x. answer ≡ Ok x)
            (λ r. (answer ≡ Err r.reason) × (r ≡ refusal self.now r.reason)) }
    {
        // A `match`: a closure for `map_err` would need clauses of its own.
        match answer {
            Ok(x) => Ok(x),
            Err(reason) => Err(Refusal {
                reason,
                place: self.place,
                sent: 0,
            }),
        }
    }
}

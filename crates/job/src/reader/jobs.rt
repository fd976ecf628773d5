ghost use Rattle.std.specs.Prelude.{◌≡◌};
ghost use Rattle.job.specs.Whole.{step, whole};
ghost use Rattle.job.specs.Laws.{StoresSpelled};

use crate::reader::JobReader;
use crate::whole::Job;
use path::refusal::Refusal;

impl JobReader<'_> {
    /// Reads to the end of the bytes into the job: of the style's items the last one counts,
    /// commands and dashes add up. A refused reader stays at the letter, and the job keeps what was
    /// stored before it.
    #[tactic(auto, using(crate::proofs::Turns::fewer))]
    pub fn read(&mut self, job: &mut Job) -> Result<(), Refusal>
        ensures whole { record { answer = result; reader = self.new; job = job.new }
            ≡ whole self.old job.old }
        ensures spelled { StoresSpelled self.old job.old
            (record { answer = result; reader = self.new; job = job.new }) }
    {
        while self.step(job)? {}
        Ok(())
    }

    // Reads one item into the job, and answers whether there was one. A step apart, so that the loop is
    // the definition's.
    fn step(&mut self, job: &mut Job) -> Result<bool, Refusal>
        ensures { record { answer = result; reader = self.new; job = job.new }
            ≡ step self.old job.old }
    {
        let Some((item, size)) = self.item()? else {
            return Ok(false);
        };
        self.placed(job.store(item))?;
        self.place += size;
        Ok(true)
    }
}

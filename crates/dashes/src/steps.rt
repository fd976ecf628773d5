ghost use Rattle.std.specs.Prelude.{◌≡◌};

/// How many steps were taken, of how many that may be.
#[derive(Clone, Copy, PartialEq, Eq)]
pub struct Steps {
    taken: u32,
    budget: u32,
}

/// The answer where every step that may be taken was taken.
#[derive(Clone, Copy, PartialEq, Eq)]
pub struct Spent;

impl Steps {
    ghost use Rattle.dashes.specs.StepCounts.{none_taken, spend_answer, spent_one};

    /// None is taken yet.
    pub fn new(budget: u32) -> Steps
        ensures { result ≡ none_taken budget }
    {
        Steps { taken: 0, budget }
    }

    pub fn taken(&self) -> u32
        ensures { result ≡ self.now.taken }
    {
        self.taken
    }

    /// One step more; refused exactly where as many as may be were taken, and nothing is altered then.
    pub fn spend(&mut self) -> Result<(), Spent>
        ensures answer { result ≡ spend_answer self.old }
        ensures after { self.new ≡ spent_one self.old }
    {
        let Steps { taken, budget } = *self;
        if taken >= budget {
            return Err(Spent);
        }
        *self = Steps {
            taken: taken + 1,
            budget,
        };
        Ok(())
    }
}

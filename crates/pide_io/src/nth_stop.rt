//! A stop that is told when to answer yes.
use pide_base::Stop;

/// Answers yes at its nth question alone, counted from 1.
#[derive(Drop)]
pub struct NthStop {
    nth: u64,
    questions: u64,
    yeses: u64,
}

impl NthStop {
    /// A stop that was not asked yet. With 0 it never answers yes.
    pub fn new(nth: u64) -> NthStop {
        NthStop {
            nth,
            questions: 0,
            yeses: 0,
        }
    }
}

impl Stop for NthStop {
    ghost yeses = { λ s. s.yeses };

    ghost questions = { λ s. s.questions };

    fn asked(&mut self) -> bool {
        self.questions = self.questions.saturating_add(1);
        if self.questions != self.nth {
            return false;
        }
        self.yeses = self.yeses.saturating_add(1);
        true
    }
}

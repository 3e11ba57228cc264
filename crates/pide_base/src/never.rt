use crate::stop::Stop;

/// Never asks to stop. It counts how often it was asked.
#[derive(Drop)]
pub struct Never {
    questions: u64,
}

impl Never {
    /// One that was not asked yet.
    pub fn new() -> Never {
        Never { questions: 0 }
    }
}

impl Stop for Never {
    ghost yeses = { λ never. 0 };

    ghost questions = { λ never. never.questions };

    fn asked(&mut self) -> bool {
        self.questions = self.questions.saturating_add(1);
        false
    }
}

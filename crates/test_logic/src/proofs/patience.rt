//! A stop that says yes at some question (`pide_base`).
use pide_base::Stop;

/// Says yes from one question on.
#[derive(Drop)]
pub(crate) struct Patience {
    /// The first question that it says yes to.
    last: usize,
    pub(crate) asked: usize,
    yeses: u64,
}

impl Patience {
    pub(crate) fn until(last: usize) -> Patience {
        Patience {
            last,
            asked: 0,
            yeses: 0,
        }
    }
}

impl Stop for Patience {
    ghost yeses = { λ s. s.yeses };

    ghost questions = { λ s. s.asked };

    fn asked(&mut self) -> bool {
        self.asked = self.asked.saturating_add(1);
        if self.asked < self.last {
            return false;
        }
        self.yeses = self.yeses.saturating_add(1);
        true
    }
}

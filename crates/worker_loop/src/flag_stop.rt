//! The stop of a worker's job.
use pide_base::{Flag, Gate, Part, Point, Stop};

/// Asks a worker's job to stop where its flag is set. Each question first comes to the gate.
#[derive(Drop)]
pub struct FlagStop<'a, 'b, G> {
    flag: &'a Flag,
    gate: &'b G,
    who: u32,
    part: Part,
    muted: bool,
    yeses: u64,
    questions: u64,
}

impl<'a, 'b, G: Gate> FlagStop<'a, 'b, G> {
    /// The stop of a part that the worker of this number has claimed. One that is muted never
    /// answers yes.
    pub fn new(
        flag: &'a Flag,
        gate: &'b G,
        who: u32,
        part: Part,
        muted: bool,
    ) -> FlagStop<'a, 'b, G> {
        FlagStop {
            flag,
            gate,
            who,
            part,
            muted,
            yeses: 0,
            questions: 0,
        }
    }
}

impl<'a, 'b, G: Gate> Stop for FlagStop<'a, 'b, G> {
    ghost yeses = { λ s. s.yeses };

    ghost questions = { λ s. s.questions };

    fn asked(&mut self) -> bool {
        self.questions = self.questions.saturating_add(1);
        self.gate.at(self.who, Point::Asked(self.part));
        if self.muted || !self.flag.is_set() {
            return false;
        }
        self.yeses = self.yeses.saturating_add(1);
        true
    }
}

// A rule set that keeps notes while it is asked, and adds to an inconsistent question as to any other.
ghost use Rattle.enquiry_tests.specs.Steps.{step, two_steps, two_steps_lawful};
ghost use Rattle.std.specs.Prelude.{◌≡◌};

use crate::build::bit;
use assignment::Assignment;
use ruleset::RuleSet;

// How many questions a rule set was asked, and the last of them with its reply; before the first, nothing is known in
// either.
#[derive(Clone, Copy, Debug, PartialEq, Eq)]
pub(crate) struct Notes {
    pub(crate) asked: u64,
    pub(crate) question: Assignment,
    pub(crate) reply: Assignment,
}

// Once an option is known yes, something is added.
#[derive(Clone, Copy)]
pub(crate) struct Step {
    pub(crate) option: u32,
    pub(crate) added: Assignment,
}

impl Step {
    fn reply(self, question: Assignment) -> Assignment
        ensures { result ≡ step self.option self.added question }
    {
        if question.knows(self.option, true) {
            return question.join(self.added);
        }
        question
    }
}

// Two steps as rules 0 and 1.
#[derive(Clone, Copy)]
pub(crate) struct Steps {
    pub(crate) first: Step,
    pub(crate) second: Step,
    pub(crate) notes: Notes,
}

impl RuleSet for Steps {
    ghost meaning = { λ s. two_steps s.first.option s.first.added s.second.option s.second.added };

    ghost lawful = { λ s. two_steps_lawful s.first.option s.first.added s.second.option s.second.added };

    fn count(&self) -> u32 {
        2
    }

    fn propagate(&mut self, rule: u32, question: Assignment) -> Assignment {
        let reply = match rule {
            0 => self.first.reply(question),
            1 => self.second.reply(question),
            _ => Assignment::contradiction(),
        };
        self.notes = Notes {
            asked: self.notes.asked.saturating_add(1),
            question,
            reply,
        };
        reply
    }
}

// Two steps that were not asked yet.
pub(crate) fn unasked(first: Step, second: Step) -> Steps {
    let notes = Notes {
        asked: 0,
        question: Assignment::new(0, 0),
        reply: Assignment::new(0, 0),
    };
    Steps {
        first,
        second,
        notes,
    }
}

// If option 0 is yes, rule 0 adds that 1 is yes; if option 2 is yes, rule 1 adds that 1 is yes and 3 no.
pub(crate) fn sample_steps() -> Steps {
    let first = Step {
        option: 0,
        added: Assignment::new(bit(1), 0),
    };
    let second = Step {
        option: 2,
        added: Assignment::new(bit(1), bit(3)),
    };
    unasked(first, second)
}

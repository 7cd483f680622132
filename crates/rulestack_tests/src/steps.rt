// A rule set that keeps notes while it is asked, and adds to an inconsistent question as to any other.
ghost use Rattle.rulestack_tests.specs.Steps.{step, two_steps, two_steps_lawful};
ghost use Rattle.std.specs.Prelude.{◌≡◌};

use assignment::Assignment;
use ruleset::RuleSet;
use std::cell::Cell;

// How many questions a rule set was asked, and the last of them with its reply.
#[derive(Clone, Copy)]
pub(crate) struct Notes {
    pub(crate) asked: u64,
    pub(crate) last: Option<(Assignment, Assignment)>,
}

// Once an option is known yes, something is added.
#[derive(Clone, Copy)]
pub(crate) struct Step {
    pub(crate) option: u32,
    pub(crate) added: Assignment,
}

impl Step {
    fn reply(self, question: Assignment) -> Assignment
        ensures { result ≡ step self.option self.added question }
    {
        if question.knows(self.option, true) {
            return question.join(self.added);
        }
        question
    }
}

// Two steps as rules 0 and 1. A copy of the notes is put into a cell, where it can be read while folders lie over the
// steps.
#[derive(Drop)]
pub(crate) struct Steps<'a> {
    pub(crate) first: Step,
    pub(crate) second: Step,
    pub(crate) notes: Notes,
    pub(crate) copy: &'a Cell<Notes>,
}

impl RuleSet for Steps<'_> {
    ghost meaning = { λ s. two_steps s.first.option s.first.added s.second.option s.second.added };

    ghost lawful = { λ s. two_steps_lawful s.first.option s.first.added s.second.option s.second.added };

    fn count(&self) -> u32 {
        2
    }

    fn propagate(&mut self, rule: u32, question: Assignment) -> Assignment {
        let reply = match rule {
            0 => self.first.reply(question),
            1 => self.second.reply(question),
            _ => Assignment::contradiction(),
        };
        self.notes.asked = self.notes.asked.saturating_add(1);
        self.notes.last = Some((question, reply));
        self.copy.set(self.notes);
        reply
    }
}

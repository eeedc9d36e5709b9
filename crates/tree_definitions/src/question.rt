ghost use Rattle.std.specs.Prelude.{◌≡◌};
ghost use Rattle.tree_definitions.specs.Questions.{goals_for};

use crate::Goal;

/// What is asked of a system.
#[derive(Clone, Copy, Debug, PartialEq, Eq)]
pub enum Question {
    Termination,
    Confluence,
    Unique,
}

const TERMINATION: [Goal; 2] = [Goal::Terminating, Goal::Nonterminating];

const CONFLUENCE: [Goal; 3] = [Goal::Confluent, Goal::ConfluentNewman, Goal::Nonconfluent];

const UNIQUE: [Goal; 3] = [Goal::Unique, Goal::UniqueNewman, Goal::Nonunique];

/// The goals of a question, which are numbered from 0 in order.
pub fn goals_of(question: Question) -> &'static [Goal]
    ensures { result.now ≡ goals_for question }
{
    match question {
        Question::Termination => &TERMINATION,
        Question::Confluence => &CONFLUENCE,
        Question::Unique => &UNIQUE,
    }
}

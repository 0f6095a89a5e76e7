//! The answer to a week.

ghost use Rattle.std.specs.Prelude.{◌≡◌, ◌≤◌, MatchOption, None, Some};
ghost use Rattle.week_plan.specs.WeekAnswers.{names_on};

use answer_text::{Answer, Head};
use rail_base::UnitNo;
use std::marker::Model;
use week_units::WeekNames;

/// The answers to days, one after another. A contract sees the list of them.
#[derive(Drop)]
pub struct Answers {
    answers: Vec<Answer>,
}

impl Model for Answers {
    ghost use Rattle.std.specs.Prelude.{List};
    ghost use Rattle.answer_text.specs.declared.answer.Answer.{Answer};

    ghost Value = { List Answer };

    ghost view = { λ a. a.answers.items };
}

impl Answers {
    /// These answers, in the order of the days. It takes no memory.
    pub(crate) fn of(answers: Vec<Answer>) -> Answers
        ensures { result ≡ answers.items }
    {
        Answers { answers }
    }

    /// The answers, in the order of the days. It takes no memory.
    pub fn items(&self) -> &[Answer]
        ensures { result.now ≡ self.now }
    {
        self.answers.as_slice()
    }
}

/// The answer to a week.
#[derive(Drop)]
pub struct Week {
    /// What is said of all week plans.
    pub head: Head,
    /// The answer to each day, up to the first on which no plan runs.
    pub days: Answers,
    /// Which unit of the week each unit of each day is, where the head has a plan; nothing where it has none.
    pub named: Option<WeekNames>,
}

impl Week {
    /// For each unit of a day the number of the unit of the week that it is, where the head has a plan; nothing where
    /// it has none. Days are counted from 1.
    pub fn names(&self, day: u32) -> Option<&[UnitNo]>
        requires { 1 ≤ day }
        ensures { MatchOption result (names_on self.now.named day ≡ None)
            (λ names. names_on self.now.named day ≡ Some names.now) }
    {
        let Some(named) = &self.named else {
            return None;
        };
        let days = named.items();
        let place = day as usize - 1;
        if place >= days.len() {
            return None;
        }
        Some(days[place].items())
    }
}

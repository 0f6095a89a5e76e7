//! What holds of answers that say what a search has found.
//!
//! A law is the contract of a function that does nothing.

ghost use Rattle.day_planner.specs.Laws.{ChangedDaysAreAnswerable, DaysAreAnswerable, SaidAnswersAreProved};

use branch_tree::Relaxation;

/// Of an answerable problem, whatever its root region and the rule of naming: of the tree of an answer that says what a
/// search has found there, all is so that is said of the tree of an answer to the day.
pub fn said_answers_are_proved<R: Relaxation>()
    ensures law { (problem : R.Problem) → SaidAnswersAreProved (R.meanings problem) }
{}

/// An accepted day is answerable, and so is it under changes in any region in which each trip has a composition.
pub fn days_are_answerable()
    ensures day { DaysAreAnswerable }
    ensures changed { ChangedDaysAreAnswerable }
{}

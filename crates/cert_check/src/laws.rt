//! What holds of verdicts. Each law is the contract of a function that does nothing.

ghost use Rattle.cert_check.specs.Laws.{VerdictsAreOne};

use branch_tree::Relaxation;

/// A claim has one verdict, so that the first reason that holds is one.
pub fn verdicts_are_one<R: Relaxation>()
    ensures law { (problem : R.Problem) → VerdictsAreOne (R.meanings problem) }
{}

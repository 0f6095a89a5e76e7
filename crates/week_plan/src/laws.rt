//! What ties the answer to a week to the answers to its days.
//!
//! A law is the contract of a function that does nothing.

ghost use Rattle.week_plan.specs.Laws.{CostAddsUp, IsOptimalByDay, LeastAddsUp};

/// The head of a week is the sum of those of its days: no week plan costs less than what no plans of the days cost less
/// than together; its plan costs what theirs cost together, and there is none where a day has none; and it is optimal
/// exactly where each of them is.
pub fn heads_add_up()
    ensures least { LeastAddsUp }
    ensures cost { CostAddsUp }
    ensures optimal { IsOptimalByDay }
{}

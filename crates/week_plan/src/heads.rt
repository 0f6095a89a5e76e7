//! What the answers to the days of a week say together.

ghost use Rattle.std.specs.Prelude.{ℕ, All, ◌≡◌, ◌≤◌, ◌+◌, ◌*◌, ◌^◌, length};
ghost use Rattle.answer_text.specs.declared.limits.TheConstants.{MAX_AMOUNT};
ghost use Rattle.rules.specs.declared.heads.Head.TheVariants as heads;
ghost use Rattle.week_units.specs.declared.nights.TheConstants.{MAX_DAYS};
ghost use Rattle.week_plan.specs.Amounts.{IsHeadUpTo, IsUpTo};
ghost use Rattle.week_plan.specs.Heads.{head_of, plus, together};

use answer_text::{Answer, Head};
use rail_base::Money;

/// The head of a week whose days have these answers, at most seven: `infeasible` where one of them is; else bounded
/// where one of them is, the sum of their bounds being the bound, where an optimal day counts with its cost; with a
/// plan where each of them has one, at the sum of their costs.
pub fn head_of(answers: &[Answer]) -> Head
    requires few { length answers.now ≤ MAX_DAYS }
    requires amounts { All (λ answer. IsHeadUpTo MAX_AMOUNT answer.head) answers.now }
    ensures value { result ≡ head_of answers.now }
    ensures amounts { IsHeadUpTo (length answers.now * MAX_AMOUNT) result }
{
    let Some((answer, rest)) = answers.split_first() else {
        return Head::Optimal { cost: Money(0) };
    };
    together(answer.head, head_of(rest))
}

/// What the head of a day and that of the days after it say together.
fn together(day: Head, rest: Head) -> Head
    requires day { IsHeadUpTo MAX_AMOUNT day }
    requires rest { IsHeadUpTo (2 ^ 100) rest }
    ensures value { result ≡ together day rest }
    ensures amounts { (most : ℕ) → IsHeadUpTo most rest → IsHeadUpTo (MAX_AMOUNT + most) result }
{
    match day {
        Head::Optimal { cost } => after_cost(cost, rest),
        Head::Infeasible => Head::Infeasible,
        Head::Bounded { bound } => after_bound(bound, rest),
        Head::BoundedPlan { bound, cost } => after_plan(bound, cost, rest),
    }
}

/// The same where the day's best plan has this cost.
fn after_cost(cost: Money, rest: Head) -> Head
    requires cost { IsUpTo MAX_AMOUNT cost }
    requires rest { IsHeadUpTo (2 ^ 100) rest }
    ensures value { result ≡ together (heads.Optimal cost) rest }
    ensures amounts { (most : ℕ) → IsHeadUpTo most rest → IsHeadUpTo (MAX_AMOUNT + most) result }
{
    match rest {
        Head::Optimal { cost: more } => Head::Optimal {
            cost: plus(cost, more),
        },
        Head::Infeasible => Head::Infeasible,
        Head::Bounded { bound } => Head::Bounded {
            bound: plus(cost, bound),
        },
        Head::BoundedPlan { bound, cost: more } => Head::BoundedPlan {
            bound: plus(cost, bound),
            cost: plus(cost, more),
        },
    }
}

/// The same where the day has this bound and no plan.
fn after_bound(bound: Money, rest: Head) -> Head
    requires bound { IsUpTo MAX_AMOUNT bound }
    requires rest { IsHeadUpTo (2 ^ 100) rest }
    ensures value { result ≡ together (heads.Bounded bound) rest }
    ensures amounts { (most : ℕ) → IsHeadUpTo most rest → IsHeadUpTo (MAX_AMOUNT + most) result }
{
    match rest {
        Head::Optimal { cost } => Head::Bounded {
            bound: plus(bound, cost),
        },
        Head::Infeasible => Head::Infeasible,
        Head::Bounded { bound: more } => Head::Bounded {
            bound: plus(bound, more),
        },
        Head::BoundedPlan { bound: more, .. } => Head::Bounded {
            bound: plus(bound, more),
        },
    }
}

/// The same where the day has this bound and a plan of this cost.
fn after_plan(bound: Money, cost: Money, rest: Head) -> Head
    requires bound { IsUpTo MAX_AMOUNT bound }
    requires cost { IsUpTo MAX_AMOUNT cost }
    requires rest { IsHeadUpTo (2 ^ 100) rest }
    ensures value { result ≡ together (heads.BoundedPlan bound cost) rest }
    ensures amounts { (most : ℕ) → IsHeadUpTo most rest → IsHeadUpTo (MAX_AMOUNT + most) result }
{
    match rest {
        Head::Optimal { cost: more } => Head::BoundedPlan {
            bound: plus(bound, more),
            cost: plus(cost, more),
        },
        Head::Infeasible => Head::Infeasible,
        Head::Bounded { bound: other } => Head::Bounded {
            bound: plus(bound, other),
        },
        Head::BoundedPlan {
            bound: other,
            cost: more,
        } => Head::BoundedPlan {
            bound: plus(bound, other),
            cost: plus(cost, more),
        },
    }
}

/// The sum of two amounts.
fn plus(one: Money, other: Money) -> Money
    requires one { IsUpTo MAX_AMOUNT one }
    requires other { IsUpTo (2 ^ 100) other }
    ensures value { result ≡ plus one other }
    ensures amount { (most : ℕ) → IsUpTo most other → IsUpTo (MAX_AMOUNT + most) result }
{
    Money(one.0 + other.0)
}

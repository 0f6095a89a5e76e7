//! What an answer says of the plans of a day.

ghost use Rattle.std.specs.Prelude.{◌≡◌};
ghost use Rattle.rules.specs.Truths.{has_plan};

use rail_base::Money;

/// What an answer says of the plans of a day.
#[derive(Clone, Copy)]
pub enum Head {
    /// The runs are a plan of this cost, and no plan that runs costs less.
    Optimal {
        /// The cost of the plan.
        cost: Money,
    },
    /// No plan runs.
    Infeasible,
    /// No plan that runs costs less than the bound.
    Bounded {
        /// The bound.
        bound: Money,
    },
    /// The runs are a plan of this cost, and no plan that runs costs less than the bound.
    BoundedPlan {
        /// The bound.
        bound: Money,
        /// The cost of the plan.
        cost: Money,
    },
}

impl Head {
    /// Whether the answer has a plan, and so may have runs.
    pub fn has_plan(&self) -> bool
        ensures { result ≡ has_plan self.now }
    {
        match self {
            Head::Optimal { .. } | Head::BoundedPlan { .. } => true,
            Head::Infeasible | Head::Bounded { .. } => false,
        }
    }
}

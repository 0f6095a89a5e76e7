//! Boxes of fleets: the fleets that are nowhere below one fleet and nowhere above another.

ghost use Rattle.std.specs.Prelude.{◌≡◌, ◌≤◌, ◌<◌, ◌+◌, length, IfOk, IsTrue, ◌↔◌};
ghost use Rattle.fleet_boxes.specs.Boxes.{IsParted, lower_part, upper_part};

use fleets::Counts;
use rail_base::NoMemory;
use std::alloc::Global;

/// The fleets between two.
#[derive(Drop)]
pub struct FleetBox {
    /// The least of them.
    pub least: Counts,
    /// The greatest of them.
    pub greatest: Counts,
}

impl FleetBox {
    /// The same box again. The error is want of memory.
    pub fn copy(&self, alloc: Global) -> Result<FleetBox, NoMemory>
        ensures least { IfOk result (λ other. other.least ≡ self.now.least) }
        ensures greatest { IfOk result (λ other. other.greatest ≡ self.now.greatest) }
    {
        Ok(FleetBox {
            least: self.least.copy(alloc)?,
            greatest: self.greatest.copy(alloc)?,
        })
    }

    /// Whether the box is parted by so many units at a place, which is below the number of places of both fleets: as
    /// many or fewer stand there in the least fleet, and more in the greatest.
    pub fn is_parted(&self, place: u32, at: u32) -> bool
        requires least { place < length self.now.least }
        requires greatest { place < length self.now.greatest }
        ensures { IsTrue result ↔ IsParted self.now place at }
    {
        self.least.at(place) <= at && at < self.greatest.at(place)
    }

    /// Of its fleets those with at most so many units at a place. The error is want of memory.
    pub fn lower(&self, alloc: Global, place: u32, at: u32) -> Result<FleetBox, NoMemory>
        requires { IsParted self.now place at }
        ensures least { IfOk result (λ part. part.least ≡ (lower_part place at self.now).least) }
        ensures greatest { IfOk result (λ part. part.greatest ≡ (lower_part place at self.now).greatest) }
    {
        let mut lower = self.copy(alloc)?;
        lower.greatest.put(place, at);
        Ok(lower)
    }

    /// Of its fleets those with more units at a place than so many. The error is want of memory.
    pub fn upper(&self, alloc: Global, place: u32, at: u32) -> Result<FleetBox, NoMemory>
        requires { IsParted self.now place at }
        ensures least { IfOk result (λ part. part.least ≡ (upper_part place at self.now).least) }
        ensures greatest { IfOk result (λ part. part.greatest ≡ (upper_part place at self.now).greatest) }
    {
        // Fewer than the most there, so that one more is a number too.
        let most = self.greatest.at(place);
        prove!(at < most);
        let mut upper = self.copy(alloc)?;
        upper.least.put(place, at + 1);
        Ok(upper)
    }
}

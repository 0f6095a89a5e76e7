//! The room in which passes over the compositions of a day are made.

ghost use Rattle.std.specs.Prelude.{IfOk, length};
ghost use Rattle.timetable.specs.Compositions.{compositions_of};
ghost use Rattle.price_bound.specs.PassRooms.{IsPassRoom};

use crate::cells::NO_VALUE;
use rail_base::NoMemory;
use std::alloc::Global;
use timetable::Instance;

/// A place for the value of each composition of a day, and two with one more for no units.
#[derive(Drop)]
pub(crate) struct PassRoom {
    /// For each composition, and for no units, the least value over shorter ones.
    pub shorter: Vec<i64>,
    /// For each composition, and for no units, the least value over longer ones.
    pub longer: Vec<i64>,
    /// The values of the compositions that arrive.
    pub values: Vec<i64>,
}

impl PassRoom {
    /// The room for a day. The error is want of memory.
    pub(crate) fn new(alloc: Global, instance: &Instance) -> Result<PassRoom, NoMemory>
        ensures { IfOk result (IsPassRoom (length (compositions_of instance.now))) }
    {
        let comps = instance.catalogue().len() as usize;
        let shorter = vec![in alloc; NO_VALUE; comps + 1]?;
        let longer = vec![in alloc; NO_VALUE; comps + 1]?;
        let values = vec![in alloc; NO_VALUE; comps]?;
        Ok(PassRoom {
            shorter,
            longer,
            values,
        })
    }
}

//! Proposals: what an advisor would have tried at a node.

ghost use Rattle.std.specs.Prelude.{◌≡◌, [], Some, None, IfOk, OnOk, OnErr};
ghost use Rattle.std.specs.Result.{result_err};
ghost use Rattle.branch_tree.specs.Entries.{IsPut, put_in};
ghost use Rattle.advisors.specs.Proposals.{DoesFit, refusal_of};

use branch_tree::{Cut, Multipliers, PutRefusal};
use rail_base::NoMemory;
use std::alloc::Global;
use std::marker::Model;

/// Multipliers that fit a problem's indices, and at most one cut. A contract sees these, how many indices there are,
/// and the index from which on a multiplier may be negative.
#[derive(Drop)]
pub struct Proposal {
    indices: u32,
    free_from: u32,
    multipliers: Multipliers,
    cut: Option<Cut>,
}

impl Model for Proposal {
    ghost use Rattle.advisors.specs.Proposed.{Proposed};

    ghost Value = { Proposed };

    ghost use Rattle.advisors.specs.Proposals.{DoesFit};

    ghost view = { λ a. record {
      indices = a.indices;
      free_from = a.free_from;
      multipliers = a.multipliers;
      cut = a.cut;
    } };

    ghost invariant = { λ a. DoesFit (record {
      indices = a.indices;
      free_from = a.free_from;
      multipliers = a.multipliers;
      cut = a.cut;
    }) };
}

impl Proposal {
    /// No multipliers and no cut, for so many indices, of which those from `free_from` on may have negative
    /// multipliers. The error is want of memory.
    pub fn new(alloc: Global, indices: u32, free_from: u32) -> Result<Proposal, NoMemory>
        ensures { IfOk result (λ proposal. proposal ≡ record {
          indices = indices;
          free_from = free_from;
          multipliers = [];
          cut = None;
        }) }
    {
        Ok(Proposal {
            indices,
            free_from,
            multipliers: Multipliers::new(alloc)?,
            cut: None,
        })
    }

    /// Takes all multipliers and the cut out; the indices stay.
    pub fn clear(&mut self)
        ensures { self.new ≡ record self.old { multipliers = []; cut = None } }
    {
        self.multipliers.clear();
        self.cut = None;
    }

    /// Sets the multiplier at an index; 0 takes its entry out. It takes no memory. The first refusal that holds comes,
    /// and the proposal is then as before:
    ///
    /// 1. `NoIndex` of an index that is none of the problem's,
    /// 2. `Negative` of a value below 0 at an index below `free_from`,
    /// 3. `TooLarge` of a value of a size over 10^12,
    /// 4. `Full` of a value other than 0, if 1,000 entries are there and none of them is of this index.
    pub fn put(&mut self, index: u32, value: i64) -> Result<(), PutRefusal>
        ensures put { OnOk result (IsPut self.old.multipliers index value self.new.multipliers) }
        ensures list { OnOk result
            (self.new ≡ record self.old { multipliers = put_in self.old.multipliers index value }) }
        ensures refusal { result_err result ≡ refusal_of self.old index value }
        ensures unchanged { OnErr result (self.new ≡ self.old) }
        ensures fit { DoesFit self.new }
    {
        if index >= self.indices {
            return Err(PutRefusal::NoIndex);
        }
        if value < 0 && index < self.free_from {
            return Err(PutRefusal::Negative);
        }
        self.multipliers.put(index, value)
    }

    /// Proposes a cut, in place of one proposed before.
    pub fn cut(&mut self, cut: Cut)
        ensures value { self.new ≡ record self.old { cut = Some cut } }
        ensures fit { DoesFit self.new }
    {
        self.cut = Some(cut);
    }

    /// The multipliers.
    pub fn multipliers(&self) -> &Multipliers
        ensures value { result.now ≡ self.now.multipliers }
        ensures fit { DoesFit self.now }
    {
        &self.multipliers
    }

    /// The last cut since the proposal was made or cleared, or nothing where none was proposed.
    pub fn asked_cut(&self) -> Option<Cut>
        ensures { result ≡ self.now.cut }
    {
        self.cut
    }
}

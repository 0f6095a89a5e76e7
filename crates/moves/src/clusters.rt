//! Clusters: sets of chains that hand-overs join, numbered by their first chains.

use rail_base::NoMemory;
use std::alloc::Global;

/// For each of so many chains the number of its cluster.
#[derive(Drop)]
pub struct Clusters {
    /// The cluster of each chain.
    pub of_chain: Vec<usize>,
    /// How many there are.
    pub count: usize,
}

impl Clusters {
    /// Each chain in a cluster of its own. The error is want of memory.
    pub fn new(alloc: Global, chains: usize) -> Result<Clusters, NoMemory> {
        let mut of_chain = vec![in alloc; 0; chains]?;
        for chain in 0..of_chain.len() {
            of_chain[chain] = chain;
        }
        Ok(Clusters {
            of_chain,
            count: chains,
        })
    }

    /// Makes one of the clusters of two chains.
    pub fn join(&mut self, chain: usize, other: usize) {
        if chain >= self.of_chain.len() || other >= self.of_chain.len() {
            return;
        }
        let (first, second) = (self.of_chain[chain], self.of_chain[other]);
        let (low, high) = if first < second {
            (first, second)
        } else {
            (second, first)
        };
        for place in 0..self.of_chain.len() {
            if self.of_chain[place] == high {
                self.of_chain[place] = low;
            }
        }
    }

    /// Numbers the clusters by their first chains. Before, each has the number of its first chain.
    pub fn number(&mut self) {
        let mut count: usize = 0;
        for chain in 0..self.of_chain.len() {
            if self.of_chain.get(chain).copied() == Some(chain) {
                self.renumber(chain, count);
                count = count.saturating_add(1);
            }
        }
        self.count = count;
    }

    /// Gives a cluster another number, which is no higher, from a chain on.
    fn renumber(&mut self, number: usize, new: usize) {
        for place in number..self.of_chain.len() {
            if self.of_chain[place] == number {
                self.of_chain[place] = new;
            }
        }
    }
}

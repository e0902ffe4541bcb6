//! The search for the best choices of a still's blocks.
#![tactic(auto)]

ghost use Rattle.std.specs.Prelude.{ℕ, ◌+◌, ◌*◌, ◌≤◌, ◌<◌, get_or};
ghost use Rattle.forward.specs.declared.table.TheConstants.{NO};
ghost use Rattle.forward.specs.Bits.{BitsOf};
ghost use Rattle.search.specs.Props.{bits_of_prop};
ghost use Rattle.search.specs.Tabling.{len_in};

mod gather;
mod table;

use forward::{Chosen, Gathered, Level, Nodes, Table};
use gather::Block;
use price::{Error, Price};
use still::Still;
use table::table_of;

/// The search for the best choices of a still's blocks, one after another.
#[derive(Drop)]
pub struct Search<'a> {
    /// The still that it was made of.
    pub still: Still<'a>,
    table: Table,
    gathered: Gathered,
    nodes: Nodes,
    ghost made: { BitsOf (len_in still) table.bits } by { bits_of_prop (len_in still) table.bits },
    ghost unused: { (s : ℕ) → 0 < s → s ≤ 10 → get_or table.bits (s * 64 + 63) 0 < NO },
}

impl<'a> Search<'a> {
    ghost use Rattle.std.specs.Prelude.{◌≡◌, ℕ, ◌<◌};
    ghost use Rattle.forward.specs.Decision.{Decides};
    ghost use Rattle.still.specs.Blocks.{count_of, block_in};
    ghost use Rattle.search.specs.Searching.{Holds, IsHolding};

    /// A search of a still: its table of bits is made here, once.
    pub fn new(still: Still<'a>) -> Search<'a>
        ensures { result.still ≡ still.entry }
    {
        Search {
            still,
            table: table_of(&still),
            gathered: Gathered {
                count: 0,
                error: Error(0),
                levels: [Level::START; 64],
            },
            nodes: Nodes::new(),
        }
    }

    /// Gathers block `i`, for `look`.
    pub fn gather(&mut self, i: usize)
        requires { i < count_of self.old.still }
        ensures holds { Holds self.new i }
        ensures still { self.new.still ≡ self.old.still }
    {
        let block = Block {
            levels: self.still.block(i),
            steps: self.still.steps,
        };
        block.gather(&mut self.gathered);
    }

    /// The best choice at a price of the block that was gathered last, or `None` where it has no codable choice.
    pub fn look(&mut self, price: Price) -> Option<Chosen>
        requires { IsHolding self.old }
        ensures decides { (i : ℕ) → Holds self.old i → Decides (block_in self.old.still i) price.a price.b result }
        ensures holds { (i : ℕ) → Holds self.old i → Holds self.new i }
        ensures still { self.new.still ≡ self.old.still }
    {
        self.nodes.search(&self.table, &self.gathered, price)
    }

    /// The best choice of block `i` at a price, or `None` where it has no codable choice.
    pub fn best(&mut self, i: usize, price: Price) -> Option<Chosen>
        requires { i < count_of self.old.still }
        ensures decides { Decides (block_in self.old.still i) price.a price.b result }
        ensures still { self.new.still ≡ self.old.still }
    {
        self.gather(i);
        self.look(price)
    }
}

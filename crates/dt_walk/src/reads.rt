ghost use Rattle.std.specs.Prelude.{◌≡◌, ◌+◌, ◌≤◌, ◌<◌, ◌%◌, ◌++◌, ◌∷◌, [], length};
ghost use Rattle.dt_walk.specs.Walk.{CanWalk, reads_from, reads_of};

use crate::arguments::WalkArgs;
use crate::entries::{is_faulty, is_leaf, table_of};
use crate::walks::{PteReader, entry_address, is_canonical, is_in_ram};
use std::marker::Model;

/// How many entries a walk reads at most.
const LEVELS: usize = 4;

/// The addresses of the entries that a walk reads, in order. A contract sees them as a list.
#[derive(Debug, Drop)]
pub struct Reads {
    addresses: [u64; LEVELS],
    count: usize,
}

impl Model for Reads {
    ghost use Rattle.std.specs.Prelude.{List, ℕ, ◌≤◌, take};

    ghost Value = { List ℕ };

    ghost view = { λ r. take r.count r.addresses };

    ghost invariant = { λ r. r.count ≤ 4 };
}

impl Reads {
    fn none() -> Reads
        ensures { result ≡ [] }
    {
        Reads {
            addresses: [0; LEVELS],
            count: 0,
        }
    }

    /// The addresses.
    pub fn as_slice(&self) -> &[u64]
        ensures { result.now ≡ self.now }
    {
        &self.addresses[..self.count]
    }

    fn push(&mut self, address: u64)
        requires { length self.old < 4 }
        ensures { self.new ≡ self.old ++ address ∷ [] }
    {
        self.addresses[self.count] = address;
        self.count += 1;
    }
}

/// The addresses of the entries that the walk for one access reads.
#[tactic(auto, unfolding(crate::specs::Walk::reads_of))]
pub fn walk_reads<R: PteReader>(reader: &R, args: WalkArgs) -> Reads
    requires { CanWalk args }
    ensures { result ≡ reads_of (R.entry reader.now) args }
{
    if !args.on {
        return Reads::none();
    }
    if !is_canonical(args.levels, args.va) {
        return Reads::none();
    }
    reads_of_tables(reader, &args)
}

fn reads_of_tables<R: PteReader>(reader: &R, args: &WalkArgs) -> Reads
    requires root { args.now.root % 4096 ≡ 0 }
    requires levels { args.now.levels ≤ 4 }
    ensures { result ≡ reads_from (R.entry reader.now) args.now args.now.levels args.now.root }
{
    let mut found = Reads::none();
    let mut table = args.root;
    for level in (0..args.levels).rev() {
        let address = entry_address(args.va, level, table);
        if !is_in_ram(address) {
            return found;
        }
        found.push(address);
        let pte = reader.pte(address);
        if is_faulty(args, level, pte) {
            return found;
        }
        if is_leaf(pte) {
            return found;
        }
        table = table_of(pte);
    }
    found
}

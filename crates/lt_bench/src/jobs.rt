//! A deal of full tables on a device in memory.

ghost use Rattle.std.specs.Prelude.{◌≡◌, ◌<◌, ◌≤◌, All, IfOk, IsTrue, length};
ghost use Rattle.lt_format.specs.Trie.{node_at};
ghost use Rattle.lt_tables.specs.Table.{newest};
ghost use Rattle.lt_compact.specs.Jobs.{begun};

use lt_alloc::Extents;
use lt_bucket::Item;
use lt_compact::{Job, JobFault, Stepped};
use lt_device::Device;
use lt_format::{Geometry, NodeId};
use lt_mem::MemTable;
use lt_node::{Change, Numbers, Trie};
use lt_page::NoMemory;
use std::alloc::Global;
use std::marker::Model;

/// Two levels, so that the deal writes groups too.
pub const GEOMETRY: Geometry = Geometry {
    levels: 2,
    slots: 1,
};

/// The tables that are dealt lie in the extents from 0 on.
pub const TABLES: [u32; 8] = [0, 1, 2, 3, 4, 5, 6, 7];

/// So that there is room for two tables and a group of each child.
pub const EXTENTS: u32 = 32;

const ROOT: NodeId = NodeId {
    level: 0,
    number: 0,
};

/// The items of a full table, of a size of 12 to 200 bytes each, in rank order. No two tables have a key in common.
pub fn full_items(alloc: Global, table: u32, size: u8) -> Result<Vec<Item>, NoMemory>
    ensures { IfOk result (λ items. newest items.items ≡ items.items) }
{
    let mut memory = MemTable::new(alloc)?;
    // A key has eight bytes, and an item's header four.
    let value = [7; 188];
    let value = value
        .get(..usize::from(size.saturating_sub(12)))
        .unwrap_or(&[]);
    for number in 0..3188u32 {
        let key = u64::from(table) * 3188 + u64::from(number);
        if memory.bytes() <= 203_892 {
            memory.put(&key.to_be_bytes(), value);
        }
    }
    let items = memory.batch(alloc)?;
    Ok(items)
}

/// The same items again, their keys hashed anew.
pub fn copies(alloc: Global, items: &[Item]) -> Result<Vec<Item>, NoMemory> {
    let mut copies = Vec::new(alloc);
    for item in items {
        copies.push(Item::copy(alloc, &item.view())?)?;
    }
    Ok(copies)
}

/// A deal in flight.
#[derive(Drop)]
pub struct Deal {
    trie: Trie,
    extents: Extents,
    job: Job,
}

impl Model for Deal {
    ghost use Rattle.lt_compact.specs.Jobs.{JobView};
    ghost use Rattle.lt_bench.specs.Deals.{MayStep};

    ghost Value = { JobView };

    ghost view = { λ deal. deal.job };

    ghost invariant = { λ deal. MayStep deal.trie deal.extents deal.job };
}

impl Deal {
    /// The deal of the tables, which are those of the root of a trie.
    pub fn begin(alloc: Global) -> Result<Option<Deal>, NoMemory> {
        let trie = trie_of(alloc)?;
        let named = trie.referenced(alloc)?;
        let named = named.as_slice();
        let fits = is_below(named, EXTENTS);
        let levels = trie.levels();
        let tables = trie.pile(ROOT).len();
        if !fits || levels != 2 || tables < 1 {
            return Ok(None);
        }
        let extents = Extents::of(alloc, EXTENTS, named)?;
        let job = root_deal(alloc, &trie)?;
        Ok(Some(Deal { trie, extents, job }))
    }

    /// Steps on until the deal is ready, and answers in how many steps it was.
    pub fn run<D: Device>(&mut self, alloc: Global, device: &mut D) -> Option<u32> {
        for made in 0..1000u32 {
            match self.step(alloc, device) {
                Ok(Stepped::Ready) => return Some(made + 1),
                Ok(Stepped::Short(_)) | Err(_) => return None,
                Ok(_) => {}
            }
        }
        None
    }

    fn step<D: Device>(&mut self, alloc: Global, device: &mut D) -> Result<Stepped, JobFault> {
        let blocks = device.blocks();
        let needed = GEOMETRY.needed(EXTENTS);
        if self.job.change().is_some() || blocks < needed {
            return Err(JobFault::Device);
        }
        self.job
            .step(alloc, device, &GEOMETRY, &self.trie, &mut self.extents)
    }
}

/// A trie whose root has the tables.
fn trie_of(alloc: Global) -> Result<Trie, NoMemory> {
    let mut trie = Trie::new(alloc, GEOMETRY.levels)?;
    let change = Change::Flush {
        tables: Numbers::of(Vec::from_slice(alloc, &TABLES)?),
    };
    if trie.fits(&change) {
        trie.apply(alloc, &change)?;
    }
    Ok(trie)
}

/// The deal of the root's tables.
fn root_deal(alloc: Global, trie: &Trie) -> Result<Job, NoMemory>
    requires levels { trie.now.levels ≡ 2 }
    requires some { 1 ≤ length (node_at trie.now.nodes ROOT).tables }
    ensures { IfOk result (λ job. job ≡ begun trie.now.levels trie.now.nodes ROOT) }
{
    Job::deal(alloc, trie, ROOT)
}

/// Whether all numbers are below a limit.
fn is_below(numbers: &[u32], limit: u32) -> bool
    ensures { IsTrue result → All (λ n. n < limit) numbers.now }
{
    numbers.iter().all(|number| *number < limit)
}

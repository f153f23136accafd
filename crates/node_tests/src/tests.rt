ghost use Rattle.std.specs.Prelude.{◌+◌, ◌<◌, [], ◌∷◌};

use lt_item::parts_of;
use lt_node::{Change, ChildChange, Children, CommitFault, NodeId, Numbers, Trie, path};
use lt_pace::{Marks, first_full, first_slack};
use lt_page::{Failed, NoMemory};
use std::alloc::Global;
use std::test::Fail;

const CHILD: NodeId = NodeId {
    level: 1,
    number: 3,
};

fn numbers(alloc: Global, list: &[u32]) -> Result<Numbers, NoMemory> {
    Ok(Numbers::of(Vec::from_slice(alloc, list)?))
}

fn flush(alloc: Global, tables: &[u32]) -> Result<Change, NoMemory> {
    Ok(Change::Flush {
        tables: numbers(alloc, tables)?,
    })
}

/// A deal of the root's oldest table to one child.
fn deal(
    alloc: Global,
    node: NodeId,
    tables: &[u32],
    kept_groups: u32,
    groups: &[u32],
) -> Result<Change, NoMemory> {
    let child = ChildChange {
        node,
        tables: numbers(alloc, tables)?,
        kept_groups,
        groups: numbers(alloc, groups)?,
    };
    Ok(Change::Deal {
        node: NodeId::ROOT,
        dropped: 1,
        children: Children::of(vec![in alloc; child]?),
    })
}

fn rewrite(
    alloc: Global,
    node: NodeId,
    tables: &[u32],
    groups: &[u32],
) -> Result<Change, NoMemory> {
    Ok(Change::Rewrite {
        node,
        tables: numbers(alloc, tables)?,
        groups: numbers(alloc, groups)?,
    })
}

/// Makes the change where it fits, and says whether it does.
fn make(alloc: Global, trie: &mut Trie, change: Change) -> Result<bool, NoMemory> {
    if !trie.fits(&change) {
        return Ok(false);
    }
    trie.apply(alloc, &change)?;
    Ok(true)
}

/// A trie of so many levels after a flush of two tables.
fn flushed(alloc: Global, levels: u8) -> Result<Trie, NoMemory>
    requires least { 1 < levels }
    requires most { levels < 6 }
{
    let mut trie = Trie::new(alloc, levels)?;
    let _ = make(alloc, &mut trie, flush(alloc, &[7, 5])?)?;
    Ok(trie)
}

/// As many numbers, from 100 on.
fn many(alloc: Global, count: u32) -> Result<Vec<u32>, NoMemory>
    requires { count < 100 }
{
    let mut list = Vec::new(alloc);
    for number in 0..count {
        list.push(100 + number)?;
    }
    Ok(list)
}

#[test]
fn flushes_append_to_the_root(rt: HostRuntime) -> Result<(), Fail> {
    let alloc = rt.alloc();
    let mut trie = flushed(alloc, 3)?;
    assert!(rt; make(alloc, &mut trie, flush(alloc, &[9])?)?);
    assert_eq!(rt; trie.pile(NodeId::ROOT), [7, 5, 9].as_slice());
    assert_eq!(rt; trie.tables(), 3);
    assert_eq!(rt; trie.nodes().len(), 1);
    Ok(())
}

#[test]
fn a_deal_to_an_inner_child(rt: HostRuntime) -> Result<(), Fail> {
    let alloc = rt.alloc();
    let mut trie = flushed(alloc, 3)?;
    assert!(rt; make(alloc, &mut trie, deal(alloc, CHILD, &[11], 0, &[])?)?);
    assert!(rt; make(alloc, &mut trie, deal(alloc, CHILD, &[12, 10], 0, &[])?)?);
    assert_eq!(rt; trie.pile(CHILD), [11, 12, 10].as_slice());
    for entry in trie.nodes() {
        assert_eq!(rt; entry.node(), CHILD);
    }
    Ok(())
}

#[test]
fn a_deal_to_the_last_level_keeps_full_groups(rt: HostRuntime) -> Result<(), Fail> {
    let alloc = rt.alloc();
    let mut trie = flushed(alloc, 2)?;
    let tables = many(alloc, 64)?;
    assert!(rt; make(alloc, &mut trie, deal(alloc, CHILD, &tables, 0, &[1])?)?);
    assert!(rt; make(alloc, &mut trie, deal(alloc, CHILD, &[12], 1, &[2])?)?);
    assert_eq!(rt; trie.groups(CHILD), [1, 2].as_slice());
    assert_eq!(rt; trie.pile(CHILD).len(), 65);
    Ok(())
}

#[test]
fn rewritings_replace_a_pile(rt: HostRuntime) -> Result<(), Fail> {
    let alloc = rt.alloc();
    let mut trie = flushed(alloc, 2)?;
    assert!(rt; make(alloc, &mut trie, deal(alloc, CHILD, &[11], 0, &[1])?)?);
    assert!(rt; make(alloc, &mut trie, rewrite(alloc, CHILD, &[12, 13], &[2])?)?);
    assert_eq!(rt;
        trie.referenced(alloc)?.as_slice(),
        [5, 12, 13, 2].as_slice()
    );
    assert_eq!(rt; trie.base(CHILD), 2);
    assert!(rt; make(alloc, &mut trie, rewrite(alloc, CHILD, &[], &[])?)?);
    assert_eq!(rt; trie.tables(), 1);
    Ok(())
}

#[test]
fn extents_that_a_change_frees(rt: HostRuntime) -> Result<(), Fail> {
    let alloc = rt.alloc();
    let mut trie = flushed(alloc, 2)?;
    let flushed = flush(alloc, &[9])?;
    assert_eq!(rt; trie.freed(alloc, &flushed)?.as_slice(), [].as_slice());
    let first = deal(alloc, CHILD, &[11], 0, &[1])?;
    assert_eq!(rt; trie.freed(alloc, &first)?.as_slice(), [7].as_slice());
    assert!(rt; make(alloc, &mut trie, first)?);
    let second = deal(alloc, CHILD, &[12], 0, &[2])?;
    assert_eq!(rt; trie.freed(alloc, &second)?.as_slice(), [5, 1].as_slice());
    let rewriting = rewrite(alloc, CHILD, &[12], &[2])?;
    assert_eq!(rt;
        trie.freed(alloc, &rewriting)?.as_slice(),
        [11, 1].as_slice()
    );
    Ok(())
}

#[test]
fn extents_that_are_not_new(rt: HostRuntime) -> Result<(), Fail> {
    let alloc = rt.alloc();
    let mut trie = flushed(alloc, 2)?;
    for tables in [[9, 9].as_slice(), &[7], &[65536], &[]] {
        assert!(rt; !make(alloc, &mut trie, flush(alloc, tables)?)?);
    }
    assert!(rt; make(alloc, &mut trie, flush(alloc, &[65535])?)?);
    Ok(())
}

#[test]
fn changes_of_another_shape(rt: HostRuntime) -> Result<(), Fail> {
    let alloc = rt.alloc();
    let mut trie = flushed(alloc, 2)?;
    assert!(rt; !make(alloc, &mut trie, deal(alloc, NodeId::ROOT, &[9], 0, &[])?)?);
    assert!(rt; !make(alloc, &mut trie, deal(alloc, CHILD, &[9], 0, &[])?)?);
    assert!(rt; !make(alloc, &mut trie, rewrite(alloc, CHILD, &[9], &[1])?)?);
    Ok(())
}

#[test]
fn a_node_that_is_set(rt: HostRuntime) -> Result<(), Fail> {
    let alloc = rt.alloc();
    let mut trie = Trie::new(alloc, 3)?;
    let table = Vec::from_slice(alloc, &[4])?;
    let no_groups = Vec::new(alloc);
    trie.set_node(alloc, CHILD, 0, Numbers::of(table), Numbers::of(no_groups))?;
    assert_eq!(rt; trie.pile(CHILD), [4].as_slice());
    Ok(())
}

#[test]
fn the_next_node_to_be_worked_at(rt: HostRuntime) -> Result<(), Fail> {
    let alloc = rt.alloc();
    let mut trie = flushed(alloc, 2)?;
    assert!(rt; make(alloc, &mut trie, flush(alloc, &many(alloc, 7)?)?)?);
    let eight = [20, 21, 22, 23, 24, 25, 26, 27];
    assert!(rt; make(alloc, &mut trie, deal(alloc, CHILD, &eight, 0, &[28])?)?);
    // The child is due and the root has eight tables; of each number of marks the next full pile, and the next
    // that may have slack.
    let mut marks = Marks::new(alloc)?;
    let rows = [
        (CHILD, Some(CHILD), Some(CHILD)),
        (NodeId::ROOT, Some(NodeId::ROOT), None),
        (NodeId::ROOT, None, None),
    ];
    for (marked_next, full, slack) in rows {
        assert_eq!(rt; first_full(&trie, &marks), full);
        assert_eq!(rt; first_slack(&trie, &marks, &marks), slack);
        marks.mark(marked_next);
    }
    marks.clear(NodeId::ROOT);
    assert_eq!(rt; first_full(&trie, &marks), Some(NodeId::ROOT));
    marks.clear_all();
    assert!(rt; !marks.is_marked(CHILD));
    Ok(())
}

#[test]
fn the_node_of_a_key(rt: HostRuntime) -> Result<(), Fail> {
    // The SHA-1 of `a` begins with 86f7: the digits are 4, 1, 5 and 7.
    let parts = parts_of(b"a");
    for (level, number) in [(0, 0), (1, 4), (2, 33), (3, 269), (4, 2159)] {
        assert_eq!(rt; path(&parts, level), NodeId { level, number });
    }
    Ok(())
}

#[test]
fn faults_of_a_commit(rt: HostRuntime) -> Result<(), Fail> {
    assert_eq!(rt; CommitFault::from(Failed), CommitFault::Device);
    assert_eq!(rt; CommitFault::from(NoMemory), CommitFault::NoMemory);
    Ok(())
}

//! Extents for shares, and the change that gives them.

ghost use Rattle.std.specs.Prelude.{◌≡◌, ◌≤◌, [], ◌∷◌, IfOk, OnErr, length, map};
ghost use Rattle.std.specs.Prelude.{◌+◌, ◌<◌, ◌^◌};
ghost use Rattle.lt_alloc.specs.Extents.{Reserves, free_count};
ghost use Rattle.lt_image.specs.Shares.{share_extents};
ghost use Rattle.lt_node.specs.Changing.{change_of as change_shown, child_of};
ghost use Rattle.lt_compact.specs.Plans.{all_given, change_for, extents_for, given_by, rewriting};

use crate::giving::give_back;
use crate::share::Share;
use lt_alloc::Extents;
use lt_format::NodeId;
use lt_node::{Change, ChildChange, Children, Numbers};
use lt_page::NoMemory;
use std::alloc::Global;

/// Extents for shares, and the change that names them.
#[derive(Drop)]
pub(super) struct Taken {
    pub numbers: Vec<u32>,
    pub change: Change,
}

/// Takes as many extents as the shares of a node's so many oldest tables need; so many are free. After an
/// `Err` none is taken.
pub(super) fn take(
    alloc: Global,
    extents: &mut Extents,
    needed: u32,
    levels: u8,
    node: NodeId,
    dropped: u32,
    shares: &[Share],
) -> Result<Taken, NoMemory>
    requires needed { needed ≡ extents_for levels shares.now }
    requires free { needed ≤ free_count extents.old }
    ensures reserved { IfOk result (λ taken.
        Reserves needed extents.old extents.new [] taken.numbers.items) }
    ensures change { IfOk result (λ taken. change_shown taken.change
        ≡ change_for levels node dropped shares.now taken.numbers.items) }
    ensures kept { OnErr result (extents.new ≡ extents.old) }
{
    let mut numbers = Vec::with_capacity(alloc, needed as usize)?;
    extents.take(needed, &mut numbers).unwrap();
    match change_for(alloc, levels, node, dropped, shares, &numbers) {
        Ok(change) => Ok(Taken { numbers, change }),
        Err(NoMemory) => {
            give_back(extents, &numbers);
            Err(NoMemory)
        }
    }
}

/// The change of a node whose so many oldest tables were shared out to these extents.
fn change_for(
    alloc: Global,
    levels: u8,
    node: NodeId,
    dropped: u32,
    shares: &[Share],
    numbers: &[u32],
) -> Result<Change, NoMemory>
    requires { length numbers.now ≡ extents_for levels shares.now }
    ensures { IfOk result (λ change. change_shown change
        ≡ change_for levels node dropped shares.now numbers.now) }
{
    let given = all_given(alloc, levels, shares, numbers)?;
    if u32::from(node.level) + 1 == u32::from(levels) {
        Ok(rewriting(alloc, node, given))
    } else {
        Ok(Change::Deal {
            node,
            dropped,
            children: Children::of(given),
        })
    }
}

/// A rewriting by what its node gets.
fn rewriting(alloc: Global, node: NodeId, given: Vec<ChildChange>) -> Change
    ensures { change_shown result ≡ rewriting node (map child_of given.items) }
{
    match given.into_iter().next() {
        Some(child) => Change::Rewrite {
            node,
            tables: child.tables,
            groups: child.groups,
        },
        None => Change::Rewrite {
            node,
            tables: Numbers::of(Vec::new(alloc)),
            groups: Numbers::of(Vec::new(alloc)),
        },
    }
}

/// What the nodes of all shares get with these extents.
fn all_given(
    alloc: Global,
    levels: u8,
    shares: &[Share],
    numbers: &[u32],
) -> Result<Vec<ChildChange>, NoMemory>
    requires { length numbers.now ≡ extents_for levels shares.now }
    ensures { IfOk result (λ given.
        map child_of given.items ≡ all_given levels shares.now numbers.now) }
{
    let mut given = Vec::with_capacity(alloc, shares.len())?;
    let mut rest = numbers;
    for share in shares {
        let (own, behind) = rest.split_at(share.extents(levels));
        given.push(given_by(alloc, levels, share, own)?)?;
        rest = behind;
    }
    Ok(given)
}

/// What the node of a share gets with these extents: first its tables, then its new groups.
fn given_by(
    alloc: Global,
    levels: u8,
    share: &Share,
    numbers: &[u32],
) -> Result<ChildChange, NoMemory>
    requires { length numbers.now ≡ share_extents levels share.now }
    ensures { IfOk result (λ child. child_of child ≡ given_by levels share.now numbers.now) }
{
    let (tables, groups) = numbers.split_at(share.tables());
    Ok(ChildChange {
        node: share.node(),
        tables: Numbers::of(Vec::from_slice(alloc, tables)?),
        kept_groups: share.kept_groups(levels) as u32,
        groups: Numbers::of(Vec::from_slice(alloc, groups)?),
    })
}

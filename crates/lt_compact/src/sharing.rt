//! How a job's newest items are shared out.

ghost use Rattle.std.specs.Prelude.{◌≡◌, ◌<◌, ◌≤◌, ◌∷◌, [], IfOk, OnErr, IsTrue, length, map};
ghost use Rattle.std.specs.Prelude.{vec_len, vec_capacity};
ghost use Rattle.std.specs.List.{filter, list_all, range_with_len};
ghost use Rattle.lt_terms.specs.Items.{is_valid};
ghost use Rattle.lt_format.specs.Trie.{child, is_node};
ghost use Rattle.lt_image.specs.Shares.{child_share, deal_shares, has_tables, rewrite_share, shares_of};
ghost use Rattle.lt_compact.specs.Sharing.{AreFrames, AreRanked, IsInner, all_framed, frame_of};

use crate::choosing::{Choice, counts_of};
use crate::share::{Share, is_last_level};
use lt_bucket::Item;
use lt_format::NodeId;
use lt_merge::{deal_by, without_deletes};
use lt_node::Trie;
use lt_page::NoMemory;
use std::alloc::Global;
use std::marker::Model;
use std::mem;

/// What is known of a child's share before the items are dealt.
#[derive(Drop)]
pub(super) struct Frame {
    digit: u8,
    node: NodeId,
    behind: Vec<u32>,
    counts: Vec<usize>,
}

impl Model for Frame {
    ghost use Rattle.lt_compact.specs.Sharing.{FrameView};

    ghost Value = { FrameView };

    ghost view = { λ f. record {
      digit = f.digit;
      node = f.node;
      behind = f.behind.items;
      counts = f.counts.items;
    } };
}

/// What the newest items of a node's tables become. Where memory is refused, the items stay.
pub(super) fn shares_of(
    alloc: Global,
    trie: &Trie,
    node: NodeId,
    kept: &mut Vec<Item>,
) -> Result<Vec<Share>, NoMemory>
    requires node { IsTrue (is_node trie.now.levels node) }
    requires items { AreRanked kept.old.items }
    ensures shares { IfOk result (λ shares.
        shares.items ≡ shares_of trie.now.levels trie.now.nodes node kept.old.items) }
    ensures valid { IfOk result (λ _. IsTrue (list_all is_valid kept.old.items)) }
    ensures kept { OnErr result (kept.new.items ≡ kept.old.items) }
{
    if is_last_level(trie.levels(), node) {
        rewriting(alloc, node, kept)
    } else {
        dealing(alloc, trie, node, kept)
    }
}

/// The tables of a rewriting: of the puts among the items.
fn rewriting(alloc: Global, node: NodeId, kept: &mut Vec<Item>) -> Result<Vec<Share>, NoMemory>
    requires items { AreRanked kept.old.items }
    ensures shares { IfOk result (λ shares. shares.items ≡ rewrite_share node kept.old.items ∷ []) }
    ensures valid { IfOk result (λ _. IsTrue (list_all is_valid kept.old.items)) }
    ensures kept { OnErr result (kept.new.items ≡ kept.old.items) }
{
    let mut shares = Vec::with_capacity(alloc, 1)?;
    let counts = counts_of(alloc, kept, Choice::Puts)?;
    let items = without_deletes(mem::replace(kept, Vec::new(alloc)));
    shares.push_reserved(Share::of(node, Vec::new(alloc), items, counts));
    Ok(shares)
}

/// The tables of a deal: of the items with each digit for the child of that digit. All memory is taken
/// before an item is moved.
fn dealing(
    alloc: Global,
    trie: &Trie,
    node: NodeId,
    kept: &mut Vec<Item>,
) -> Result<Vec<Share>, NoMemory>
    requires inner { IsInner trie.now.levels node }
    requires items { AreRanked kept.old.items }
    ensures shares { IfOk result (λ shares.
        shares.items ≡ deal_shares trie.now.nodes node kept.old.items) }
    ensures valid { IfOk result (λ _. IsTrue (list_all is_valid kept.old.items)) }
    ensures kept { OnErr result (kept.new.items ≡ kept.old.items) }
{
    // A trie has at most five levels, and names at most 65,536 tables.
    prove!(trie.levels() <= 5);
    let shares = Vec::with_capacity(alloc, 8)?;
    let frames = frames_of(alloc, trie, node, kept)?;
    let lists = deal_by(alloc, kept, node.level)?;
    Ok(filled(alloc, shares, frames, lists))
}

/// For each digit the frame of its child.
fn frames_of(
    alloc: Global,
    trie: &Trie,
    node: NodeId,
    kept: &[Item],
) -> Result<Vec<Frame>, NoMemory>
    requires inner { IsInner trie.now.levels node }
    requires items { AreRanked kept.now }
    ensures frames { IfOk result (λ frames.
        frames.items ≡ map (frame_of trie.now.nodes node kept.now) (range_with_len 0 8)) }
    ensures valid { IfOk result (λ _. IsTrue (list_all is_valid kept.now)) }
{
    let mut frames = Vec::with_capacity(alloc, 8)?;
    for digit in 0..8u8 {
        frames.push(frame_of(alloc, trie, node, kept, digit)?)?;
    }
    Ok(frames)
}

/// The frame of the child for a digit.
fn frame_of(
    alloc: Global,
    trie: &Trie,
    node: NodeId,
    kept: &[Item],
    digit: u8,
) -> Result<Frame, NoMemory>
    requires inner { IsInner trie.now.levels node }
    requires digit { digit < 8 }
    requires items { AreRanked kept.now }
    ensures frame { IfOk result (λ frame. frame ≡ frame_of trie.now.nodes node kept.now digit) }
    ensures valid { IfOk result (λ _. IsTrue (list_all is_valid kept.now)) }
{
    let choice = Choice::Digit {
        level: node.level,
        digit,
    };
    let child = child(trie, node, digit);
    Ok(Frame {
        digit,
        node: child,
        behind: Vec::from_slice(alloc, trie.pile(child))?,
        counts: counts_of(alloc, kept, choice)?,
    })
}

/// The child for a digit of a node that is not of the last level.
fn child(trie: &Trie, node: NodeId, digit: u8) -> NodeId
    requires inner { IsInner trie.now.levels node }
    requires digit { digit < 8 }
    ensures child { result ≡ child node digit }
    ensures level { node.level ≤ 3 }
{
    // A trie has at most five levels.
    prove!(trie.levels() <= 5);
    NodeId {
        level: node.level + 1,
        number: 8 * node.number + digit as u16,
    }
}

/// The shares of the frames whose lists have items. There is room for them.
fn filled(
    alloc: Global,
    mut shares: Vec<Share>,
    frames: Vec<Frame>,
    mut lists: Vec<Vec<Item>>,
) -> Vec<Share>
    requires empty { shares.items ≡ [] }
    requires room { length frames.items ≤ vec_capacity shares }
    requires frames { AreFrames 0 frames.items (map (λ list. list.items) lists.items) }
    ensures { result.items ≡ filter has_tables (all_framed frames.items (map (λ list. list.items) lists.items)) }
{
    for frame in frames {
        let Frame {
            digit,
            node,
            behind,
            counts,
        } = frame;
        if !counts.is_empty() {
            let items = mem::replace(&mut lists[digit as usize], Vec::new(alloc));
            shares.push_reserved(Share::of(node, behind, items, counts));
        }
    }
    shares
}

//! Ways down the tree, by the keys of its nodes.
ghost use Rattle.std.specs.Prelude.{◌≡◌, ◌+◌, ◌<◌, ◌≤◌, ◌^◌, length, IfSome, IfNone};
ghost use Rattle.record_delta.specs.Entries.{is_above as is_above_key};
ghost use Rattle.mem_table.specs.Shapes.{height_of, places, tree_at, IsBalanced, MayLoseOne, IsTaken};
ghost use Rattle.mem_table.specs.Ways.{IsTree, IsPlaced, AreWithout, IsNew, IsAdded, entry_at, tree_entries, place_above, or_else, place_of};

use crate::nodes::{NONE, Node, join, settle};
use crate::steps::Steps;
use blsm_model::Key;
use entry_store::Store;
use std::cmp::Ordering;
use std::marker::Brand;
use std::sync::ledger::{Blank, Ledger};

// The place of a key in the tree at a node.
pub(crate) fn find(nodes: &[Node], store: &Store, root: u32, key: &Key) -> Option<u32>
    requires { IsTree nodes.now store.now.slots root }
    ensures found { IfSome result (IsPlaced store.now.slots (places (tree_at nodes.now root)) key.now) }
    ensures absent { IfNone result (AreWithout key.now (tree_entries nodes.now store.now.slots root)) }
{
    find_from::<Brand>(nodes, store, root, key, Blank::new(1))
}

// The same, with steps that nobody reads.
fn find_from<L: Ledger>(
    nodes: &[Node],
    store: &Store,
    root: u32,
    key: &Key,
    blank: Blank,
) -> Option<u32>
    requires tree { IsTree nodes.now store.now.slots root }
    requires name { blank.name ≡ L.name }
    requires parts { blank.parts ≡ L.parts }
    requires some { 0 < blank.parts }
    ensures found { IfSome result (IsPlaced store.now.slots (places (tree_at nodes.now root)) key.now) }
    ensures absent { IfNone result (AreWithout key.now (tree_entries nodes.now store.now.slots root)) }
{
    let mut steps = Steps::<L>::none(blank);
    find_in(nodes, store, root, key, &mut steps)
}

// The same, with a step for each comparison: at most as many as the tree is high.
pub(crate) fn find_in<L: Ledger>(
    nodes: &[Node],
    store: &Store,
    root: u32,
    key: &Key,
    steps: &mut Steps<L>,
) -> Option<u32>
    requires { IsTree nodes.now store.now.slots root }
    ensures found { IfSome result (IsPlaced store.now.slots (places (tree_at nodes.now root)) key.now) }
    ensures absent { IfNone result (AreWithout key.now (tree_entries nodes.now store.now.slots root)) }
    ensures more { steps.old ≤ steps.new }
    ensures few { steps.new ≤ steps.old + height_of nodes.now root }
{
    let place = descend(nodes, store, root, key, steps);
    if place == NONE { None } else { Some(place) }
}

// The same, with `NONE` for no place: where one number comes back, the compiler makes a loop of the calls.
fn descend<L: Ledger>(
    nodes: &[Node],
    store: &Store,
    root: u32,
    key: &Key,
    steps: &mut Steps<L>,
) -> u32
    requires { IsTree nodes.now store.now.slots root }
    ensures found { IfSome (place_of result) (IsPlaced store.now.slots (places (tree_at nodes.now root)) key.now) }
    ensures absent { IfNone (place_of result) (AreWithout key.now (tree_entries nodes.now store.now.slots root)) }
    ensures more { steps.old ≤ steps.new }
    ensures few { steps.new ≤ steps.old + height_of nodes.now root }
{
    if root == NONE {
        return NONE;
    }
    let node = &nodes[root as usize];
    match steps.compare(key, store, root) {
        Ordering::Less => descend(nodes, store, node.left, key, steps),
        Ordering::Equal => root,
        Ordering::Greater => descend(nodes, store, node.right, key, steps),
    }
}

// The place of the least key above this one, or of the least where this is none, in the tree at a node; where there is none, what was
// found before.
pub(crate) fn find_above(
    nodes: &[Node],
    store: &Store,
    root: u32,
    key: &Option<Key>,
    before: Option<u32>,
) -> Option<u32>
    requires { IsTree nodes.now store.now.slots root }
    ensures { result ≡ or_else (place_above store.now.slots key.now (places (tree_at nodes.now root))) before }
{
    if root == NONE {
        return before;
    }
    let node = nodes[root as usize];
    if is_above(key, store, root) {
        find_above(nodes, store, node.left, key, Some(root))
    } else {
        find_above(nodes, store, node.right, key, before)
    }
}

fn is_above(low: &Option<Key>, store: &Store, place: u32) -> bool
    requires { place < length store.now.slots }
    ensures { result ≡ is_above_key low.now (entry_at store.now.slots place).0 }
{
    match low {
        None => true,
        Some(low) => store.compare(low, place).is_lt(),
    }
}

// Adds a node for a key that the tree at a node hasn't, and gives the node that is then on top.
pub(crate) fn add_under(nodes: &mut [Node], store: &Store, root: u32, key: &Key, new: u32) -> u32
    requires tree { IsTree nodes.old store.now.slots root }
    requires balanced { IsBalanced (tree_at nodes.old root) }
    requires new { IsNew nodes.old store.now.slots root new }
    requires key { (entry_at store.now.slots new).0 ≡ key.now }
    requires low { height_of nodes.old root + 1 < 2 ^ 32 }
    ensures { IsAdded nodes.old nodes.new store.now.slots root new result }
{
    if root == NONE {
        join(nodes, new, NONE, NONE);
        return new;
    }
    let node = nodes[root as usize];
    match store.compare(key, root) {
        Ordering::Less => {
            let left = add_under(nodes, store, node.left, key, new);
            settle(nodes, root, left, node.right)
        }
        _ => {
            let right = add_under(nodes, store, node.right, key, new);
            settle(nodes, root, node.left, right)
        }
    }
}

// Takes the node of the least key out of the tree at a node. It gives that node's number, and the node that is then on top.
pub(crate) fn take_least(nodes: &mut [Node], root: u32) -> (u32, u32)
    requires may { MayLoseOne nodes.old root }
    requires low { height_of nodes.old root < 2 ^ 32 }
    ensures { IsTaken nodes.old nodes.new root result.0 result.1 }
{
    let node = nodes[root as usize];
    if node.left == NONE {
        return (root, node.right);
    }
    let (least, left) = take_least(nodes, node.left);
    (least, settle(nodes, root, left, node.right))
}

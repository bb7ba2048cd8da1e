//! A balanced tree of numbered nodes.
ghost use Rattle.std.specs.Prelude.{◌≡◌, ◌+◌, ◌<◌, ◌≤◌, ◌^◌, length, max};
ghost use Rattle.mem_table.specs.Shapes.{height_of, joined, tree_at, MayHang, IsHung, DifferByAtMost};

/// Where there is no node.
pub(crate) const NONE: u32 = u32::MAX;

/// A node of the tree: the nodes below it, and the height of the tree that hangs from it.
#[derive(Clone, Copy, Debug, Drop)]
pub(crate) struct Node {
    pub(crate) left: u32,
    pub(crate) right: u32,
    pub(crate) height: u32,
}

impl Node {
    // A node with none below it.
    pub(crate) fn alone() -> Node {
        Node {
            left: NONE,
            right: NONE,
            height: 1,
        }
    }
}

// The height of the tree at a node, 0 where there is none.
pub(crate) fn height_at(nodes: &[Node], at: u32) -> u32
    ensures { result ≡ height_of nodes.now at }
{
    match nodes.get(at as usize) {
        Some(node) => node.height,
        None => 0,
    }
}

// Hangs two trees from a node.
pub(crate) fn join(nodes: &mut [Node], at: u32, left: u32, right: u32)
    requires in_range { at < length nodes.old }
    requires low { max (height_of nodes.old left) (height_of nodes.old right) + 1 < 2 ^ 32 }
    ensures { nodes.new ≡ joined nodes.old at left right }
{
    let height = height_at(nodes, left).max(height_at(nodes, right)) + 1;
    nodes[at as usize] = Node {
        left,
        right,
        height,
    };
}

// Hangs two trees from a node, turned where one is two levels higher than the other, and gives the node that is then on top.
pub(crate) fn settle(nodes: &mut [Node], at: u32, left: u32, right: u32) -> u32
    requires may { MayHang nodes.old at left right (tree_at nodes.old left) (tree_at nodes.old right) }
    requires differ { DifferByAtMost 2 (height_of nodes.old left) (height_of nodes.old right) }
    requires low { max (height_of nodes.old left) (height_of nodes.old right) + 1 < 2 ^ 32 }
    ensures { IsHung nodes.old nodes.new at (tree_at nodes.old left) (tree_at nodes.old right) result (tree_at nodes.new result) }
{
    let left_height = height_at(nodes, left);
    let right_height = height_at(nodes, right);
    if left_height > right_height + 1 {
        lean_left(nodes, at, left, right)
    } else if right_height > left_height + 1 {
        lean_right(nodes, at, left, right)
    } else {
        join(nodes, at, left, right);
        at
    }
}

// The left tree is two levels higher.
fn lean_left(nodes: &mut [Node], at: u32, left: u32, right: u32) -> u32
    requires may { MayHang nodes.old at left right (tree_at nodes.old left) (tree_at nodes.old right) }
    requires higher { height_of nodes.old left ≡ height_of nodes.old right + 2 }
    requires low { height_of nodes.old left + 1 < 2 ^ 32 }
    ensures { IsHung nodes.old nodes.new at (tree_at nodes.old left) (tree_at nodes.old right) result (tree_at nodes.new result) }
{
    let Node {
        left: outer,
        right: inner,
        ..
    } = nodes[left as usize];
    if height_at(nodes, outer) >= height_at(nodes, inner) {
        join(nodes, at, inner, right);
        join(nodes, left, outer, at);
        return left;
    }
    let top = nodes[inner as usize];
    join(nodes, left, outer, top.left);
    join(nodes, at, top.right, right);
    join(nodes, inner, left, at);
    inner
}

// The right tree is two levels higher.
fn lean_right(nodes: &mut [Node], at: u32, left: u32, right: u32) -> u32
    requires may { MayHang nodes.old at left right (tree_at nodes.old left) (tree_at nodes.old right) }
    requires higher { height_of nodes.old right ≡ height_of nodes.old left + 2 }
    requires low { height_of nodes.old right + 1 < 2 ^ 32 }
    ensures { IsHung nodes.old nodes.new at (tree_at nodes.old left) (tree_at nodes.old right) result (tree_at nodes.new result) }
{
    let Node {
        left: inner,
        right: outer,
        ..
    } = nodes[right as usize];
    if height_at(nodes, outer) >= height_at(nodes, inner) {
        join(nodes, at, left, inner);
        join(nodes, right, at, outer);
        return right;
    }
    let top = nodes[inner as usize];
    join(nodes, at, left, top.left);
    join(nodes, right, top.right, outer);
    join(nodes, inner, at, right);
    inner
}

// The tree of a text, in an array: parts before wholes and left before right, so that a node's right or only part is the node before it.
ghost use Rattle.std.specs.Prelude.{◌≡◌, ◌<◌, length};
ghost use Rattle.reading.specs.Layout.{pushed};

use super::MOST_BYTES;

#[derive(Clone, Copy)]
pub(crate) enum Leaf {
    Flag(u8),
    One,
    Zero,
}

#[derive(Clone, Copy)]
pub(crate) enum Prefix {
    Not,
    Next,
    Weak,
    Finally,
    Globally,
}

#[derive(Clone, Copy)]
pub(crate) enum Binary {
    Until,
    Release,
    And,
    Or,
    Implies,
}

// A binary sign stands with the place of its left part, in two bytes: the array is filled at every reading.
#[derive(Clone, Copy)]
pub(crate) enum Node {
    Leaf(Leaf),
    Prefix(Prefix),
    Binary(Binary, u16),
}

// As many nodes as a text has bytes, since each takes one at least: the project has no heap.
#[derive(Drop)]
pub(crate) struct Tree {
    pub nodes: [Node; MOST_BYTES],
    pub count: usize,
}

impl Tree {
    pub(crate) fn empty() -> Tree
        ensures { (result.count ≡ 0) × (length result.nodes ≡ 1024) }
    {
        Tree {
            // a node whose bytes are zeros, so that the array is zeroed at once; no node is read before it is pushed
            nodes: [Node::Leaf(Leaf::Flag(0)); MOST_BYTES],
            count: 0,
        }
    }

    pub(crate) fn push(&mut self, node: Node)
        requires { self.old.count < 1024 }
        ensures { self.new ≡ pushed self.old node }
    {
        let count = self.count;
        self.nodes[count] = node;
        self.count = count + 1;
    }
}

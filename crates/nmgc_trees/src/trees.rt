//! The decider that makes and counts the trees of its plan in turn.
//!
//! The second tree keeps register 0 from its making to its count. The first tree had it before, and was dropped when the second
//! tree overwrote it. Small trees have their roots in register 1. Easy to get wrong: a register of the last walk still holds a
//! part of a dropped tree, until the next tree overwrites it.
ghost use Rattle.std.specs.Prelude.{IfSome};
ghost use Rattle.nmgc_limits.specs.Limits.{least_segment_words};
ghost use Rattle.nmgc_commands.specs.Fitting.{FitsAny};

use crate::build::Build;
use crate::plan::{FIRST_DEPTH, Plan};
use crate::walk::Walk;
use nmgc_commands::registers::{LAST, R0, R1};
use nmgc_commands::{PackedCommand, Register};
use nmgc_decider::Decider;
use nmgc_world_spec::{Reply, Value};

// The registers of the second tree's root and of a small tree's root.
const KEPT: Register = R0;

const SMALL: Register = R1;

/// The register that always holds nil.
pub const NIL: Register = LAST;

/// The number of even depths that small trees may have.
pub const DEPTHS: usize = 8;

// The tree at which the decider works.
#[derive(Clone, Copy, Debug, PartialEq, Eq)]
enum Tree {
    First,
    Kept,
    // The depth, and how many more of it follow.
    Small { depth: u8, more: u32 },
    KeptAgain,
    // All trees were made and counted.
    None,
}

// The work at the tree.
#[derive(Clone, Copy, Debug, PartialEq, Eq)]
enum Doing {
    Building(Build),
    Walking(Walk),
}

/// A mutator's trees: the decider.
#[derive(Clone, Copy, Debug, PartialEq, Eq)]
pub struct Trees {
    plan: Plan,
    tree: Tree,
    doing: Doing,
    /// The nodes counted in the first tree.
    pub first: u64,
    /// The nodes counted in the second tree.
    pub kept: u64,
    /// The nodes counted in the small trees of each depth, from `FIRST_DEPTH` on.
    pub small: [u64; DEPTHS],
    /// The number of objects made.
    pub made: u64,
    /// The number of replies that none of its commands should have.
    pub refused: u64,
}

impl Trees {
    /// Makes the decider of a plan, and its first command, which puts nil into the register that holds it. The clause says only
    /// that the command fits.
    pub fn new(plan: Plan) -> (Self, PackedCommand)
        ensures { FitsAny result.1 }
    {
        let mut trees = Trees {
            plan,
            tree: Tree::First,
            doing: Doing::Building(Build::new(KEPT, plan.depth.saturating_add(1))),
            first: 0,
            kept: 0,
            small: [0; DEPTHS],
            made: 0,
            refused: 0,
        };
        if !plan.has_large() {
            trees.begin_small(FIRST_DEPTH);
        }
        (trees, PackedCommand::nil(NIL))
    }

    /// Returns whether all trees of the plan were made and counted, and no reply was refused.
    pub fn is_done(&self) -> bool {
        self.tree == Tree::None && self.refused == 0
    }

    // Begins to make a tree.
    fn begin(&mut self, tree: Tree, first: Register, depth: u8) {
        self.tree = tree;
        self.doing = Doing::Building(Build::new(first, depth));
    }

    // Begins the small trees of the first even depth from `depth` on that the plan has. After the last depth, begins the last count.
    fn begin_small(&mut self, depth: u8) {
        for depth in depth..=self.plan.depth {
            if depth % 2 == 0 && self.plan.share(depth) > 0 {
                let more = self.plan.share(depth).saturating_sub(1);
                self.begin(Tree::Small { depth, more }, SMALL, depth);
                return;
            }
        }
        if self.plan.has_large() {
            self.tree = Tree::KeptAgain;
            self.doing = Doing::Walking(Walk::new(KEPT));
        } else {
            self.tree = Tree::None;
        }
    }

    // Goes on after a tree was made: it is counted now, or kept.
    fn built(&mut self) {
        match self.tree {
            Tree::First => self.doing = Doing::Walking(Walk::new(KEPT)),
            Tree::Small { .. } => self.doing = Doing::Walking(Walk::new(SMALL)),
            _ => self.begin_small(FIRST_DEPTH),
        }
    }

    // Adds the nodes of a tree that was counted, and goes on with the next tree.
    fn counted(&mut self, nodes: u64) {
        match self.tree {
            Tree::First => {
                self.first = nodes;
                self.begin(Tree::Kept, KEPT, self.plan.depth);
            }
            Tree::Small { depth, more } => {
                self.add_small(depth, nodes);
                if more > 0 {
                    self.begin(
                        Tree::Small {
                            depth,
                            more: more - 1,
                        },
                        SMALL,
                        depth,
                    );
                } else {
                    self.begin_small(depth.saturating_add(1));
                }
            }
            _ => {
                self.kept = nodes;
                self.tree = Tree::None;
            }
        }
    }

    // Adds nodes to the count of a depth.
    fn add_small(&mut self, depth: u8, nodes: u64) {
        let place = usize::from(depth.saturating_sub(FIRST_DEPTH) / 2);
        if let Some(sum) = self.small.get_mut(place) {
            *sum = sum.saturating_add(nodes);
        }
    }

    // Returns the command with which the current tree goes on, or begins; or `None` if there is no tree left.
    fn begun(&mut self) -> Option<PackedCommand>
        ensures { IfSome result FitsAny }
    {
        if self.tree == Tree::None {
            return None;
        }
        match &mut self.doing {
            Doing::Building(build) => build.next(),
            Doing::Walking(walk) => walk.left(),
        }
    }
}

impl Decider for Trees {
    ghost steps = { λ p r q. Unit {0} };

    ghost words = { λ p. least_segment_words };

    ghost valid = { λ p. Unit {0} };

    fn decide(&mut self, reply: Reply) -> Option<PackedCommand> {
        match (&mut self.doing, reply) {
            (Doing::Building(build), Reply::Fine) if !build.is_begun() => {}
            (Doing::Building(build), Reply::Given(Value::Ref(_))) => {
                self.made = self.made.saturating_add(1);
                if let Some(command) = build.next() {
                    return Some(command);
                }
                self.built();
            }
            (Doing::Walking(walk), Reply::Given(_)) => {
                if let Some(command) = walk.next(reply) {
                    return Some(command);
                }
                let nodes = walk.nodes();
                self.counted(nodes);
            }
            (_, _) => {
                self.refused = self.refused.saturating_add(1);
                self.tree = Tree::None;
            }
        }
        self.begun()
    }
}

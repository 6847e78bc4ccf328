//! All that was looked at, each by the choice that led there.

use crate::choice::Choice;
use std::alloc::{AllocError, Allocator};

/// How many worlds are kept in mind at most: some 480 megabytes.
const MOST: usize = 10_000_000;

/// A world that was looked at: what led there, from which other one.
#[derive(Clone, Copy, Debug, PartialEq, Eq)]
struct Node {
    /// The place of the other one.
    parent: usize,
    /// None for the world in which the search begins, which has the place 0.
    choice: Option<Choice>,
}

/// The worlds that were looked at, those with fewer events before others.
#[derive(Drop)]
pub(crate) struct Tree<A: Allocator> {
    nodes: Vec<Node, A>,
}

impl<A: Allocator + Copy> Tree<A> {
    /// The world in which a search begins alone.
    pub(crate) fn new(alloc: A) -> Result<Self, AllocError> {
        let mut nodes = Vec::new(alloc);
        nodes.push(Node {
            parent: 0,
            choice: None,
        })?;
        Ok(Tree { nodes })
    }

    /// How many worlds there are.
    pub(crate) fn len(&self) -> usize {
        self.nodes.len()
    }

    /// Whether no other may come.
    pub(crate) fn is_full(&self) -> bool {
        self.nodes.len() >= MOST
    }

    /// Keeps in mind a world to which a choice leads from the one at a place.
    ///
    /// # Errors
    /// Want of memory.
    pub(crate) fn push(&mut self, parent: usize, choice: Choice) -> Result<(), AllocError> {
        self.nodes.push(Node {
            parent,
            choice: Some(choice),
        })?;
        Ok(())
    }

    /// The choices that lead from where the search begins to the world at a place, in order.
    ///
    /// # Errors
    /// Want of memory.
    pub(crate) fn way_to(&self, place: usize) -> Result<Vec<Choice, A>, AllocError> {
        let mut way = Vec::new(*self.nodes.allocator());
        let mut place = place;
        for _ in 0..self.nodes.len() {
            let Some(node) = self.nodes.get(place) else {
                break;
            };
            let Some(choice) = node.choice else {
                break;
            };
            way.push(choice)?;
            place = node.parent;
        }
        way.reverse();
        Ok(way)
    }
}

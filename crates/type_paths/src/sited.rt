//! Nodes and where they stand.

ghost use Rattle.std.specs.Prelude.{◌≡◌, ◌≤◌, ℕ, option_copied};
ghost use Rattle.type_paths.specs.Sites.{line_of, own_at, sites_of, token_at};

use crate::sites::NodeSites;
use idl_tree::names::At;
use std::marker::Model;
use type_graph::Node;

const NOWHERE: At = At { token: 0, line: 0 };

/// A list of nodes, and the sites of those from the first that has some.
#[derive(Drop)]
pub struct Sited<'a> {
    pub nodes: &'a [Node],
    pub first: usize,
    pub sites: &'a [NodeSites],
}

impl<'a> Model for Sited<'a> {
    ghost use Rattle.type_paths.specs.Sites.{Types};

    ghost Value = { Types };

    ghost view = { λ s. record { nodes = s.nodes.now; first = s.first; sites = s.sites.now } };
}

impl<'a> Sited<'a> {
    fn sites_of(&self, node: usize) -> Option<&NodeSites>
        ensures { option_copied result ≡ sites_of self.now node }
    {
        let behind = node.checked_sub(self.first)?;
        self.sites.get(behind)
    }

    /// Where a node stands: token 0 in line 0 if it has no sites.
    pub fn own_at(&self, node: usize) -> At
        ensures { result ≡ own_at self.now node }
    {
        match self.sites_of(node) {
            None => NOWHERE,
            Some(sites) => sites.at(),
        }
    }

    /// The token of what a node holds at a place.
    pub fn token_at(&self, node: usize, place: usize) -> usize
        ensures { result ≡ token_at self.now node place }
    {
        match self.sites_of(node) {
            None => 0,
            Some(sites) => sites.token(place),
        }
    }

    /// The line of a token, 0 where nothing stands there.
    pub fn line_of(&self, token: usize) -> usize
        ensures { result ≡ line_of self.now token }
    {
        for sites in self.sites {
            if let Some(at) = sites.known(token) {
                return at.line;
            }
        }
        0
    }

    /// A token that none of what is held stands behind.
    pub fn greatest(&self) -> usize
        ensures { (node place : ℕ) → token_at self.now node place ≤ result }
    {
        let mut greatest = 0;
        for sites in self.sites {
            greatest = sites.greatest().max(greatest);
        }
        greatest
    }
}

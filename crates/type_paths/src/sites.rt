//! Where types stand.

ghost use Rattle.std.specs.Prelude.{◌≡◌, ◌≤◌, ℕ};
ghost use Rattle.type_paths.specs.Sites.{held_token, known_of};

use idl_tree::names::At;
use std::marker::Model;

/// Where a node stands, and where each of what it holds does, in order.
#[derive(Drop)]
pub struct NodeSites {
    at: At,
    held: Vec<At>,
}

impl Model for NodeSites {
    ghost use Rattle.type_paths.specs.Sites.{Sites};

    ghost Value = { Sites };

    ghost view = { λ s. record { at = s.at; held = s.held.items } };
}

impl NodeSites {
    /// The sites. Takes no memory.
    pub fn new(at: At, held: Vec<At>) -> Self
        ensures { result ≡ record { at = at; held = held.items } }
    {
        NodeSites { at, held }
    }

    /// Its own.
    pub fn at(&self) -> At
        ensures { result ≡ self.now.at }
    {
        self.at
    }

    /// Those of what it holds.
    pub fn held(&self) -> &[At]
        ensures { result.now ≡ self.now.held }
    {
        self.held.as_slice()
    }

    /// The token of what it holds at a place.
    pub(crate) fn token(&self, place: usize) -> usize
        ensures { result ≡ held_token self.now place }
    {
        self.held.get(place).copied().unwrap_or(self.at).token
    }

    /// Where the token stands, if the node or what it holds stands at it.
    pub(crate) fn known(&self, token: usize) -> Option<At>
        ensures { result ≡ known_of token self.now }
    {
        if self.at.token == token {
            return Some(self.at);
        }
        for at in self.held() {
            if at.token == token {
                return Some(*at);
            }
        }
        None
    }

    /// The greatest of the tokens.
    pub(crate) fn greatest(&self) -> usize
        ensures own { self.now.at.token ≤ result }
        ensures held { (place : ℕ) → held_token self.now place ≤ result }
    {
        let mut greatest = self.at.token;
        for at in self.held() {
            greatest = greatest.max(at.token);
        }
        greatest
    }
}

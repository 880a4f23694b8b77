//! Handles, and what they are.

use mon_base::Numbered;
use std::marker::Model;

/// A leaf, or a node of a table.
#[derive(Clone, Copy, Debug, PartialEq, Eq)]
pub struct Handle {
    pub(crate) number: u32,
}

impl Model for Handle {
    ghost use Rattle.std.specs.Prelude.{ℕ};

    ghost Value = { ℕ };

    ghost view = { λ h. h.number };

    ghost inverse = { λ n. record { number = n } };
}

impl Numbered for Handle {
    ghost number = { λ h. h };

    ghost exact = { λ a b e. e };

    fn number(&self) -> u32 {
        self.number
    }
}

/// What a handle is: a leaf, or a node with its level and its two children.
#[derive(Clone, Copy, Debug)]
pub enum Branch {
    Zero,
    One,
    Node {
        level: u16,
        low: Handle,
        high: Handle,
    },
}

/// Consecutive levels: the first one, and how many they are.
#[derive(Clone, Copy, Debug, PartialEq, Eq)]
pub struct Block {
    pub first: u16,
    pub bits: u8,
}

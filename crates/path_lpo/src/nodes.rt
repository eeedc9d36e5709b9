ghost use Rattle.std.specs.Prelude.{◌≡◌};
ghost use Rattle.path_lpo.specs.Graph.{root_of, split_of};

use crate::root::Root;

/// A filtered term, or a list of such terms, over earlier ones, which it names by their numbers.
#[derive(Clone, Copy, PartialEq)]
pub(crate) enum Node {
    Var(u32),
    /// A symbol over a list.
    App(u32, u32),
    Nil,
    /// A term before a list.
    Cons(u32, u32),
}

impl Node {
    /// The root of a term.
    pub(crate) fn root(self) -> Root<u32>
        ensures { result ≡ root_of self }
    {
        match self {
            Node::Var(x) => Root::Variable(x),
            Node::App(f, args) => Root::Symbol(f, args),
            Node::Nil => Root::Variable(0),
            Node::Cons(_, _) => Root::Variable(0),
        }
    }

    /// The first term of a list, and the others.
    pub(crate) fn split(self) -> Option<(u32, u32)>
        ensures { result ≡ split_of self }
    {
        match self {
            Node::Var(_) => None,
            Node::App(_, _) => None,
            Node::Nil => None,
            Node::Cons(first, rest) => Some((first, rest)),
        }
    }

    /// A number that is seldom the same for two nodes.
    pub(crate) fn hash(self) -> u64 {
        match self {
            Node::Var(x) => hash_of_pair(x, u32::MAX),
            Node::App(f, args) => hash_of_pair(f, args),
            Node::Nil => 0,
            Node::Cons(first, rest) => hash_of_pair(first, rest).rotate_right(16),
        }
    }
}

/// A number for two, seldom the same for two others. Each bit of it depends on all bits of the two.
pub(crate) fn hash_of_pair(a: u32, b: u32) -> u64 {
    let both = (u64::from(a) << 32) | u64::from(b);
    let once = both.wrapping_mul(0x9E37_79B9_7F4A_7C15);
    let turned = once ^ (once >> 32);
    turned.wrapping_mul(0xD6E8_FEB8_6659_FD93) >> 16
}

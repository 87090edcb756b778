// The language of trees over a list of its own.
ghost use Rattle.std.specs.Prelude.{◌≡◌, vec_items};
ghost use Rattle.languages.specs.Types.{tree_class, caught_in};

use crate::language::Language;
use crate::tree::Tree;

#[derive(Drop)]
pub struct OwnedTree {
    pub parents: Vec<u16>,
}

impl OwnedTree {
    fn lend(&self) -> Tree<'_>
        ensures { result.parents.now ≡ self.now.parents.items }
    {
        Tree {
            parents: self.parents.as_slice(),
        }
    }
}

impl Language for OwnedTree {
    const CLASS: u64 = <Tree as Language>::CLASS;

    ghost native = { tree_class };

    ghost caught = { λ s catch thrown. caught_in (vec_items s.parents) catch thrown };

    fn is_native(&self, class: u64) -> bool {
        class == Self::CLASS
    }

    fn catches(&self, catch: u16, thrown: u16) -> bool {
        self.lend().catches(catch, thrown)
    }
}

// The language whose types have parents: a type is caught by itself and by its ancestors.
ghost use Rattle.std.specs.Prelude.{◌≡◌, IsTrue, ◌↔◌};
ghost use Rattle.languages.specs.Types.{tree_class, some_parent, caught_in, Catches};

use crate::language::Language;

// A lent list of parents, the first that of type 1: a list by number, as types are numbers in tables and questions.
#[derive(Clone, Copy)]
pub struct Tree<'a> {
    pub parents: &'a [u16],
}

impl Tree<'_> {
    // Whether a catch type is the thrown type itself or one of its ancestors.
    #[tactic(auto, using(crate::proofs::Caught::decides))]
    pub fn is_self_or_ancestor(&self, catch: u16, thrown: u16) -> bool
        ensures { IsTrue result ↔ Catches self.now.parents.now catch thrown }
    {
        self.catches(catch, thrown)
    }

    // The parent of a type, if it has one.
    fn parent(&self, of: u16) -> Option<u16>
        ensures { result ≡ some_parent self.now.parents.now of }
    {
        let index = usize::from(of).checked_sub(1)?;
        let parent = *self.parents.get(index)?;
        // One that is not below its type counts as 0, and 0 is none: one `then_some` over both tests is slower.
        let parent = if parent < of { parent } else { 0 };
        (parent != 0).then_some(parent)
    }
}

impl<'a> Language for Tree<'a> {
    const CLASS: u64 = 0x474e_5543_432b_2b00;

    ghost native = { tree_class };

    ghost caught = { λ s catch thrown. caught_in s.parents.now catch thrown };

    fn is_native(&self, class: u64) -> bool {
        class == Self::CLASS
    }

    fn catches(&self, catch: u16, thrown: u16) -> bool {
        let mut reached = thrown;
        while reached != catch {
            let Some(parent) = self.parent(reached) else {
                return false;
            };
            reached = parent;
        }
        true
    }
}

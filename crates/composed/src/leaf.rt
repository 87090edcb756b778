// The leaves that a tree may have.
ghost use Rattle.composed.specs.Leaf.{leaf_verdict};
ghost use Rattle.std.proofs.Common.{rules};

use languages::exact::Exact;
use lsda::leaf::Table;
use personality::interface::Personality;
use personality::layers::Release;
use personality::verdict::{Question, Verdict};

// Over the types of its tables, so that what they mean, and that a forced question gets no harm from them, comes by
// their bounds.
#[derive(Drop)]
pub enum AnyLeaf<T, E> {
    Release(Release),
    Tree(T),
    Exact(E),
}

// T is the language with parents.
pub type Leaf<T> = AnyLeaf<Table<T>, Table<Exact>>;

impl<T: Personality, E: Personality> Personality for AnyLeaf<T, E> {
    ghost verdict = { leaf_verdict T.Personality.verdict E.Personality.verdict };

    ghost forced = { Prim.search rules };

    fn ask(&self, image: &[u8], question: Question) -> Verdict {
        match self {
            AnyLeaf::Release(leaf) => leaf.ask(image, question),
            AnyLeaf::Tree(leaf) => leaf.ask(image, question),
            AnyLeaf::Exact(leaf) => leaf.ask(image, question),
        }
    }
}

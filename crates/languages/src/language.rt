// The interface of a language.
ghost use Rattle.std.specs.Prelude.{◌≡◌, ℕ, Bool, ◌==◌};

pub trait Language {
    // The class of the language's own exceptions; one of another class is foreign.
    const CLASS: u64;

    // CLASS, as contracts name it.
    ghost native: { ℕ };

    // Whether a catch type catches a thrown type.
    ghost caught: { Self → ℕ → ℕ → Bool };

    // Whether an exception of this class is the language's own: compares it with CLASS. Each implementation has this body
    // itself, since the checker states no constant for an implementation with a lifetime, as that of Tree.
    fn is_native(&self, class: u64) -> bool
        ensures { result ≡ (class == native) };

    fn catches(&self, catch: u16, thrown: u16) -> bool
        ensures { result ≡ caught self.now catch thrown };
}

// Exceptions, and the records of those that somebody holds.

// What a make fixes for good: `thrown` is the exception's type.
#[derive(Clone, Copy, PartialEq, Eq, Debug)]
pub struct Exception {
    pub serial: u32,
    pub class: u64,
    pub thrown: u16,
}

// An exception that somebody holds.
#[derive(Clone, Copy, PartialEq, Eq, Debug)]
pub struct HeldException {
    pub exception: Exception,
    // it is with its raiser
    pub owned: bool,
}

// An open catch: the exception, the number of the frame that its handler is in, and whether the handler has begun.
#[derive(Clone, Copy, PartialEq, Eq, Debug)]
pub struct Catch {
    pub exception: Exception,
    pub frame: usize,
    pub begun: bool,
}

// Frames, and the unwindings whose cleanups run in them.
use crate::exception::Exception;

#[derive(Clone, Copy, PartialEq, Eq, Debug)]
pub struct Frame {
    pub unit: u16,
    pub place: u32,
}

// Where an unwinding ends: at the handler that its search found, or with so many frames left.
#[derive(Clone, Copy, PartialEq, Eq, Debug)]
pub enum Goal {
    Handler {
        frame: usize,
        pad: u32,
        selector: i32,
    },
    Keep {
        frames: usize,
    },
}

#[derive(Clone, Copy, PartialEq, Eq, Debug)]
pub struct Unwinding {
    pub exception: Exception,
    pub goal: Goal,
}

// A frame on the stack and, while a cleanup runs in it, the unwinding that landed there.
#[derive(Clone, Copy, PartialEq, Eq, Debug)]
pub struct Activation {
    pub frame: Frame,
    pub cleanup: Option<Unwinding>,
}

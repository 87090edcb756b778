// What a call answers.
ghost use Rattle.std.specs.Prelude.{◌≡◌};
ghost use Rattle.calls.specs.Numbers.{refusal_number, selector_of};

use personality::fault::Fault;

// Where an unwinding lands: to run a cleanup, or to enter the handler that its search found.
#[derive(Clone, Copy, PartialEq, Eq, Debug)]
pub enum Kind {
    Cleanup,
    Handler { selector: i32 },
}

impl Kind {
    // The selector that a landing answers: the handler's, and as the rules have it 0 at a cleanup.
    pub fn selector(self) -> i32
        ensures { result ≡ selector_of self }
    {
        match self {
            Kind::Cleanup => 0,
            Kind::Handler { selector } => selector,
        }
    }
}

// The exception's serial, the number of the frame (0 at the bottom), and the landing pad that it goes on at.
#[derive(Clone, Copy, PartialEq, Eq, Debug)]
pub struct Landing {
    pub serial: u32,
    pub frame: usize,
    pub pad: u32,
    pub kind: Kind,
}

#[derive(Clone, Copy, PartialEq, Eq, Debug)]
pub enum Answer {
    // enter, move, leave, delete
    Done,
    // make
    Made {
        serial: u32,
    },
    // raise, resume, rethrow, force
    Landed(Landing),
    // force, resume: the exception is with its raiser again
    Stopped {
        serial: u32,
    },
    // begin: the handler count, as the rules have it negative while the exception unwinds or has a catch that is not begun
    Begun {
        handlers: i32,
    },
    // end: the handler count that is left, and whether the exception waits from now on
    Ended {
        serial: u32,
        handlers: i32,
        waits: bool,
    },
    // collect
    Collected {
        serial: u32,
    },
    Refused(Refusal),
}

// Why a call is refused. A refused call changes nothing.
#[derive(Clone, Copy, PartialEq, Eq, Debug)]
pub enum Refusal {
    // there are 64 frames
    FramesFull,
    // there is no frame
    NoFrame,
    // a catch is open in the top frame
    CatchOpen,
    // a cleanup runs in the top frame
    CleanupRuns,
    // there are 16 uncollected exceptions
    ExceptionsFull,
    // the last serial was given
    SerialsUsedUp,
    // no uncollected exception has this serial
    NoSuchException,
    // the exception is not with its raiser
    NotWithRaiser,
    // there is no catch, or the newest is not begun
    NoBegunCatch,
    // the newest catch is not the top frame's
    CatchBelowTop,
    // the exception unwinds already
    AlreadyUnwinds,
    // there are 32 open catches
    CatchesFull,
    // more frames are to be kept than there are, or the innermost running cleanup's frame would not be kept
    KeepOutOfRange,
    // the search met Terminate
    Terminated { frame: usize },
    // the search, or the first asking of a forced unwinding, met Broken
    BrokenTable { frame: usize, fault: Fault },
    // the search passed the innermost running cleanup's frame
    PassedFence,
    // the search found no handler, and no cleanup runs
    NoHandler,
    // the serial is not the innermost unwinding's, or its cleanup's frame is not the top
    NotInnermost,
    // the newest catch is not an unbegun one of this serial
    NoUnbegunCatch,
    // nothing waits
    NothingWaits,
}

impl Refusal {
    // The number that reports give: `u8::from` would not say which number.
    pub fn number(self) -> u8
        ensures { result ≡ refusal_number self }
    {
        match self {
            Refusal::FramesFull => 1,
            Refusal::NoFrame => 2,
            Refusal::CatchOpen => 3,
            Refusal::CleanupRuns => 4,
            Refusal::ExceptionsFull => 5,
            Refusal::SerialsUsedUp => 6,
            Refusal::NoSuchException => 7,
            Refusal::NotWithRaiser => 8,
            Refusal::NoBegunCatch => 9,
            Refusal::CatchBelowTop => 10,
            Refusal::AlreadyUnwinds => 11,
            Refusal::CatchesFull => 12,
            Refusal::KeepOutOfRange => 13,
            Refusal::Terminated { .. } => 14,
            Refusal::BrokenTable { .. } => 15,
            Refusal::PassedFence => 16,
            Refusal::NoHandler => 17,
            Refusal::NotInnermost => 18,
            Refusal::NoUnbegunCatch => 19,
            Refusal::NothingWaits => 20,
        }
    }
}

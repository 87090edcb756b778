// The twelve calls.

#[derive(Clone, Copy, PartialEq, Eq, Debug)]
pub enum Call {
    // puts a frame on top
    Enter { unit: u16, place: u32 },
    // changes the top frame's place
    Move { place: u32 },
    // takes the top frame off
    Leave,
    // makes an exception, which is then with its raiser
    Make { class: u64, thrown: u16 },
    // searches for a handler, and walks to it
    Raise { serial: u32 },
    // takes the running cleanup's frame away, and walks on
    Resume { serial: u32 },
    // raises the newest catch's exception once more
    Rethrow,
    // walks until `keep` frames are left, whatever the handlers
    Force { serial: u32, keep: usize },
    // marks the newest catch begun
    Begin { serial: u32 },
    // closes the newest catch
    End,
    // takes an exception from its raiser
    Delete { serial: u32 },
    // hands out the exception that has waited longest
    Collect,
}

//! What commands over devices in memory end with.
use gx_commands::Noted;

/// What became of a command: its status, what was written, how many bytes weren't read, and whether the user gets a
/// message.
#[derive(Drop)]
pub(crate) struct Ended {
    pub(crate) status: u8,
    written: Vec<u8>,
    pub(crate) left: usize,
    has_message: bool,
}

impl Ended {
    /// A command that has ended so.
    pub(crate) fn new(
        status: u8,
        writer: Noted<Vec<u8>>,
        faults: Noted<Vec<u8>>,
        left: usize,
    ) -> Self {
        Ended {
            status,
            written: writer.inner,
            left,
            has_message: !faults.inner.is_empty(),
        }
    }

    /// Whether it is this status, and this text was written and no more. The user gets a message if the status isn't 0.
    pub(crate) fn is(&self, status: u8, text: &[u8]) -> bool {
        self.status == status
            && self.has_message == (status != 0)
            && self.written.as_slice() == text
    }
}

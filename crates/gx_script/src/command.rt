//! The commands of a script.
ghost use Rattle.std.specs.Prelude.{◌≡◌};
ghost use Rattle.gx_script.specs.Requests.{command_of};

/// A command of a script.
#[derive(Clone, Copy)]
pub enum Command {
    /// Open a transaction.
    Begin,
    /// Add an entry.
    Insert,
    /// Take an entry away.
    Delete,
    /// Find what overlaps.
    Overlap,
    /// Find what lies within.
    Within,
    /// Find what is equal.
    Equal,
    /// Find what covers.
    Covers,
    /// Keep the transaction's changes.
    Commit,
    /// Drop the transaction's changes.
    Abort,
}

impl Command {
    /// The command that a word names, in capitals.
    pub fn of(word: &[u8]) -> Option<Command>
        ensures { result ≡ command_of word.now }
    {
        if word == b"BEGIN".as_slice() {
            Some(Command::Begin)
        } else if word == b"INSERT".as_slice() {
            Some(Command::Insert)
        } else if word == b"DELETE".as_slice() {
            Some(Command::Delete)
        } else if word == b"OVERLAP".as_slice() {
            Some(Command::Overlap)
        } else if word == b"WITHIN".as_slice() {
            Some(Command::Within)
        } else if word == b"EQUAL".as_slice() {
            Some(Command::Equal)
        } else if word == b"COVERS".as_slice() {
            Some(Command::Covers)
        } else if word == b"COMMIT".as_slice() {
            Some(Command::Commit)
        } else if word == b"ABORT".as_slice() {
            Some(Command::Abort)
        } else {
            None
        }
    }
}

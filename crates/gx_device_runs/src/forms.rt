//! The lines that are known.

/// A form a line: `n` is a number, `w` any word, `..` any words up to the end, and each other word is itself.
const FORMS: [&str; 75] = [
    "device new n",
    "device fuse n once",
    "device fuse n ever",
    "device fuse n ever w",
    "device fuse n once w",
    "device crash",
    "device crash w",
    "device crash w w",
    "device reserve n n",
    "device cut n",
    "device firsts",
    "disk fill n w",
    "disk fill n w n",
    "disk front n ..",
    "disk sync",
    "show sector n",
    "show gates n",
    "show zeros n n",
    "parameters write n n n",
    "parameters read",
    "log start w n",
    "log room",
    "log fill n",
    "log steps n",
    "log turns n",
    "put counters",
    "put commit n",
    "put head n",
    "read log",
    "read selected",
    "read place w n",
    "read first n",
    "all crashes batch",
    "all crashes turn",
    "all faults batch",
    "all faults turn",
    "frames n",
    "pages lay n n n",
    "pages leaves n n",
    "pool bring n",
    "pool view n",
    "pool change n n n",
    "pool change-kept n n n",
    "pool gated n",
    "pool write n",
    "pool hold-none",
    "look dirty",
    "look dirty-frames",
    "look nsn n",
    "look kept n",
    "record commit n n",
    "record end n",
    "record counters n n n n",
    "record note n n w n",
    "record write n n w w n",
    "record two n n n n",
    "record three n n n n n n",
    "record short n",
    "text set n w",
    "text zeros",
    "text front n",
    "run long",
    "run faults n",
    "storage whole n n n n",
    "storage each n n n n n",
    "storage fail n n n n n n n",
    "scan overlap n",
    "scan within n",
    "scan equal n",
    "scan covers n",
    "file write",
    "file open",
    "file share",
    "file create n",
    "file remove",
];

/// Whether a word is what a form has in its place.
fn is_in_place(wanted: &str, word: &str) -> bool {
    match wanted {
        "n" => word.parse::<u64>().is_ok(),
        "w" => true,
        _ => wanted == word,
    }
}

/// Whether a line has a form.
fn has_form(line: &str, form: &str) -> bool {
    let mut words = line.split_whitespace();
    for wanted in form.split_whitespace() {
        if wanted == ".." {
            return true;
        }
        match words.next() {
            Some(word) if is_in_place(wanted, word) => {}
            _ => return false,
        }
    }
    words.next().is_none()
}

/// Whether a line has one of the forms.
pub(crate) fn is_known(line: &str) -> bool {
    for form in FORMS {
        if has_form(line, form) {
            return true;
        }
    }
    false
}

//! Texts that say what is damaged on a device.
ghost use Rattle.std.specs.Prelude.{◌≡◌, ◌≤◌, ◌++◌};
ghost use Rattle.arrayvec.specs.ArrayString.{array_string_len};
ghost use Rattle.gx_commands.specs.Lines.{damage_sentence};
ghost use Rattle.gx_found_log.specs.Texts.{damage_text};
ghost use Rattle.gx_legality.specs.Texts.{text_of};

use crate::person::SENTENCE;
use arrayvec::ArrayString;
use gx_found_log::LogDamage;
use gx_glog::Extent;
use gx_legality::Rule;
use gx_opening::Damage;
use itoa::Buffer;

// The text that says where a log is damaged, and which rule is broken there.
fn push_log(line: &mut ArrayString<SENTENCE>, damage: LogDamage)
    requires { array_string_len line.old ≤ 64 }
    ensures { line.new.bytes ≡ line.old.bytes ++ damage_text damage }
{
    let mut digits = Buffer::new();
    match damage.extent {
        Extent::A => line.push_str("log A, body "),
        Extent::B => line.push_str("log B, body "),
    }
    line.push_str(digits.format(damage.body));
    line.push_str(", byte ");
    line.push_str(digits.format(damage.at));
    line.push_str(": ");
    line.push_str(damage.rule.text());
}

// The text that says which rule a tree breaks.
fn push_rule(line: &mut ArrayString<SENTENCE>, rule: Rule)
    requires { array_string_len line.old ≤ 256 }
    ensures { line.new.bytes ≡ line.old.bytes ++ text_of rule }
{
    let (front, slot) = rule.words();
    line.push_str(front);
    if let Some((slot, back)) = slot {
        let mut digits = Buffer::new();
        line.push_str(digits.format(slot));
        line.push_str(back);
    }
}

/// The text that says where damage lies, and which rule is broken there.
pub(crate) fn sentence_of(damage: Damage) -> ArrayString<SENTENCE>
    ensures { result.bytes ≡ damage_sentence damage }
{
    let mut digits = Buffer::new();
    let mut line = ArrayString::new();
    line.push_str("what the device holds is damaged: ");
    match damage {
        Damage::Log(damage) => push_log(&mut line, damage),
        Damage::TooManyPages(used) => {
            line.push_str(digits.format(used));
            line.push_str(" pages are in use, which are too many");
        }
        Damage::Unreadable(page) => {
            line.push_str("page ");
            line.push_str(digits.format(page));
            line.push_str(" can't be read");
        }
        Damage::Broken(page, rule) => {
            line.push_str("page ");
            line.push_str(digits.format(page));
            line.push_str(": ");
            push_rule(&mut line, rule);
        }
    }
    line
}

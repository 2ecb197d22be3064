//! The words for the fault lines of `station`.
ghost use Rattle.std.specs.Prelude.{◌≡◌, ◌≤◌, length};
ghost use Rattle.explain.specs.FaultLines.{fault_in, fault_words, hex_fault, names_program, roster_fault, script_fault, serve_fault};

use roster::RosterFaultKind;
use text::cut_piece;

/// Returns the fault of this number of a roster.
#[tactic(auto, unfolding(crate::specs::FaultLines::roster_fault))]
fn roster_fault(number: &[u8]) -> &'static str
    ensures text { result.now ≡ roster_fault number.now }
    ensures len { length result.now ≤ 90 }
{
    match number {
        [b'1'] => RosterFaultKind::NotToml.words(),
        [b'2'] => RosterFaultKind::BadShape.words(),
        [b'3'] => RosterFaultKind::TooMany.words(),
        [b'4'] => RosterFaultKind::BadName.words(),
        [b'5'] => RosterFaultKind::BadCv.words(),
        [b'6'] => RosterFaultKind::BadModule.words(),
        [b'7'] => RosterFaultKind::Empty.words(),
        [b'9'] => RosterFaultKind::BadCvList.words(),
        _ => "",
    }
}

/// Returns the fault of this number of a script.
#[tactic(auto, unfolding(crate::specs::FaultLines::script_fault))]
fn script_fault(number: &[u8]) -> &'static str
    ensures text { result.now ≡ script_fault number.now }
    ensures len { length result.now ≤ 90 }
{
    match number {
        [b'1'] => "a line begins with line, turn or show; or a word is missing, or one too many",
        [b'2'] => "a byte is not two hexadecimal digits",
        [b'3'] => "a number is not one to seven decimal digits, or turns are out of their range",
        [b'4'] => "the station has no such line",
        [b'5'] => "the roster has no such node",
        [b'6'] => "the script has more than 1,048,576 bytes",
        _ => "",
    }
}

/// Returns the fault of this number of a hex text.
#[tactic(auto, unfolding(crate::specs::FaultLines::hex_fault))]
fn hex_fault(number: &[u8]) -> &'static str
    ensures text { result.now ≡ hex_fault number.now }
    ensures len { length result.now ≤ 90 }
{
    match number {
        [b'1'] => "a word is not two hexadecimal digits",
        [b'2'] => "the text has more than 1,048,576 bytes",
        _ => "",
    }
}

/// Returns the fault of this number of a served connection.
#[tactic(auto, unfolding(crate::specs::FaultLines::serve_fault))]
fn serve_fault(number: &[u8]) -> &'static str
    ensures text { result.now ≡ serve_fault number.now }
    ensures len { length result.now ≤ 90 }
{
    match number {
        [b'1'] => "a read of the connection failed",
        [b'2'] => "a write to the connection failed",
        [b'3'] => "standard output could not be written",
        [b'4'] => "the most reads of a connection were made",
        _ => "",
    }
}

/// Returns the fault of a kind and a number; no text if there is none.
#[tactic(auto, unfolding(crate::specs::FaultLines::fault_words))]
fn fault_words(kind: &[u8], number: &[u8]) -> &'static str
    ensures text { result.now ≡ fault_words kind.now number.now }
    ensures len { length result.now ≤ 90 }
{
    if kind == b"roster".as_slice() {
        roster_fault(number)
    } else if kind == b"script".as_slice() {
        script_fault(number)
    } else if kind == b"hex".as_slice() {
        hex_fault(number)
    } else if kind == b"serve".as_slice() {
        serve_fault(number)
    } else {
        ""
    }
}

/// Whether a word begins the fault lines of `station`.
pub(crate) fn names_program(word: &[u8]) -> bool
    ensures { result ≡ names_program word.now }
{
    word == b"station:".as_slice()
}

/// Returns the words for a fault line, given after the program's name: a kind, `fault` and a number.
/// No text if it has another form.
#[tactic(auto, unfolding(crate::specs::FaultLines::fault_in))]
pub(crate) fn fault_in(text: &[u8]) -> &'static str
    ensures text { result.now ≡ fault_in text.now }
    ensures len { length result.now ≤ 90 }
{
    let (kind, rest) = cut_piece(text);
    let (word, rest) = cut_piece(rest);
    if word != b"fault".as_slice() {
        return "";
    }
    fault_words(kind, cut_piece(rest).0)
}

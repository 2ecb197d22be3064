//! Scripts, line by line.
ghost use Rattle.std.specs.Prelude.{◌≡◌, ◌≢◌, ◌≤◌, ◌∷◌, [], IfOk, IfErr, Ok, Err, drop, if◌then◌else◌, nat_lt};
ghost use Rattle.show_text.specs.declared.command.ScriptFaultKind.TheVariants.{NoMemory};
ghost use Rattle.text.specs.Words.{words_of};
ghost use Rattle.show_text.specs.Script.{Adds, AreCounted, AreOnLines, below, first_number_of, is_count, bytes_of, some_bytes, line_of, nodes_of, set_with, missed_of, turn_of, show_of, command_of, line_commands, fault_at, script_of};

use crate::command::{Command, ScriptFault, ScriptFaultKind};
use std::alloc::Global;
use text::{LONGEST_TEXT, Lines, WordError, Words, read_decimal};

/// The most turns that one line may request.
const MOST_TURNS: u32 = 1_000_000;

/// A number of turns.
fn count(number: u32) -> Result<u32, ScriptFaultKind>
    ensures { result ≡ (if is_count number then Ok number else Err ScriptFaultKind.BadNumber) }
{
    match number {
        1..=MOST_TURNS => Ok(number),
        _ => Err(ScriptFaultKind::BadNumber),
    }
}

/// Returns a number below `limit`, or the fault `why`.
fn number_below(number: u32, limit: u8, why: ScriptFaultKind) -> Result<u8, ScriptFaultKind>
    ensures { result ≡ (if nat_lt number limit then Ok number else Err why) }
{
    if number < u32::from(limit) {
        Ok(number as u8)
    } else {
        Err(why)
    }
}

/// The number of a node.
fn node_number(word: &[u8], nodes: u8) -> Result<u8, ScriptFaultKind>
    ensures { result ≡ below nodes ScriptFaultKind.BadNode word.now }
{
    let Some(number) = read_decimal(word) else {
        return Err(ScriptFaultKind::BadNumber);
    };
    number_below(number, nodes, ScriptFaultKind::BadNode)
}

/// Takes the next word as a number.
fn next_number(words: &mut Words<'_>) -> Result<u32, ScriptFaultKind>
    ensures number { result ≡ first_number_of (words_of words.old.0.now) }
    ensures rest { words_of words.new.0.now ≡ drop 1 (words_of words.old.0.now) }
{
    match words.next_number() {
        Ok(number) => Ok(number),
        Err(WordError::Missing) => Err(ScriptFaultKind::BadWord),
        Err(WordError::Invalid) => Err(ScriptFaultKind::BadNumber),
    }
}

/// Appends a command.
fn push_command(commands: &mut Vec<Command>, command: Command) -> Result<(), ScriptFaultKind>
    ensures { Adds commands.old.items commands.new.items result (Ok (command ∷ [])) }
{
    commands.push(command).map_err(ScriptFaultKind::from)
}

/// The bytes that the words write.
#[tactic(auto, using(crate::proofs::Reading::byte_steps), unfolding(crate::specs::Script::bytes_of))]
fn push_bytes(
    line: u8,
    mut words: Words<'_>,
    commands: &mut Vec<Command>,
) -> Result<(), ScriptFaultKind>
    ensures { Adds commands.old.items commands.new.items result
        (bytes_of line (words_of words.entry.0.now)) }
{
    loop {
        match words.next_byte() {
            Ok(byte) => push_command(commands, Command::Byte { line, byte })?,
            Err(WordError::Missing) => return Ok(()),
            Err(WordError::Invalid) => return Err(ScriptFaultKind::BadHex),
        }
    }
}

/// The bytes of a line, one or more.
fn push_some_bytes(
    line: u8,
    words: Words<'_>,
    commands: &mut Vec<Command>,
) -> Result<(), ScriptFaultKind>
    ensures { Adds commands.old.items commands.new.items result
        (some_bytes line (words_of words.entry.0.now)) }
{
    if words.is_empty() {
        return Err(ScriptFaultKind::BadWord);
    }
    push_bytes(line, words, commands)
}

/// The number of a line, and its bytes.
#[tactic(auto, using(crate::proofs::FirstWord::line_steps))]
fn push_line(
    mut words: Words<'_>,
    lines: u8,
    commands: &mut Vec<Command>,
) -> Result<(), ScriptFaultKind>
    ensures { Adds commands.old.items commands.new.items result
        (line_of lines (words_of words.entry.0.now)) }
{
    let line = number_below(next_number(&mut words)?, lines, ScriptFaultKind::BadLine)?;
    push_some_bytes(line, words, commands)
}

/// The set of the nodes that the words name.
#[tactic(auto, using(crate::proofs::NodeSets::node_steps), unfolding(crate::specs::Script::nodes_of))]
fn named_nodes(words: Words<'_>, nodes: u8) -> Result<u64, ScriptFaultKind>
    requires { nodes ≤ 64 }
    ensures { result ≡ set_with 0 (nodes_of nodes (words_of words.entry.0.now)) }
{
    let mut named = 0u64;
    for word in words {
        named |= 1 << node_number(word, nodes)?;
    }
    Ok(named)
}

/// Returns the set of the nodes named by the words after a number of turns.
#[tactic(auto, using(crate::proofs::FirstWord::missed_steps))]
fn missing_nodes(mut words: Words<'_>, nodes: u8) -> Result<u64, ScriptFaultKind>
    requires { nodes ≤ 64 }
    ensures { result ≡ missed_of nodes (words_of words.entry.0.now) }
{
    if words.is_empty() {
        return Ok(0);
    }
    if words.take_word("miss") && !words.is_empty() {
        named_nodes(words, nodes)
    } else {
        Err(ScriptFaultKind::BadWord)
    }
}

/// A number of turns, and the nodes that miss them.
#[tactic(auto, using(crate::proofs::FirstWord::turn_steps))]
fn push_turns(
    mut words: Words<'_>,
    nodes: u8,
    commands: &mut Vec<Command>,
) -> Result<(), ScriptFaultKind>
    requires { nodes ≤ 64 }
    ensures { Adds commands.old.items commands.new.items result
        (turn_of nodes (words_of words.entry.0.now)) }
{
    let number = next_number(&mut words)?;
    match (count(number), missing_nodes(words, nodes)) {
        (Ok(count), Ok(missed)) => push_command(commands, Command::Turns { count, missed }),
        (Err(why), _) | (_, Err(why)) => Err(why),
    }
}

/// Fails if there is a further word.
fn push_show(words: Words<'_>, commands: &mut Vec<Command>) -> Result<(), ScriptFaultKind>
    ensures { Adds commands.old.items commands.new.items result
        (show_of (words_of words.entry.0.now)) }
{
    if !words.is_empty() {
        return Err(ScriptFaultKind::BadWord);
    }
    push_command(commands, Command::Show)
}

/// Appends the commands of a line, by its first word. A line that begins with `#` has none.
#[tactic(auto, using(crate::proofs::FirstWord::command_steps))]
fn push_line_commands(
    line: &[u8],
    lines: u8,
    nodes: u8,
    commands: &mut Vec<Command>,
) -> Result<(), ScriptFaultKind>
    requires { nodes ≤ 64 }
    ensures { Adds commands.old.items commands.new.items result
        (line_commands lines nodes line.now) }
{
    let mut words = Words(line);
    if line.starts_with(b"#".as_slice()) {
        Ok(())
    } else if words.take_word("line") {
        push_line(words, lines, commands)
    } else if words.take_word("turn") {
        push_turns(words, nodes, commands)
    } else if words.take_word("show") {
        push_show(words, commands)
    } else if words.is_empty() {
        Ok(())
    } else {
        Err(ScriptFaultKind::BadWord)
    }
}

fn fault_at(why: ScriptFaultKind, line: u64) -> ScriptFault
    ensures known { why ≢ NoMemory → result ≡ fault_at why line }
    ensures memory { why ≡ NoMemory → result ≡ fault_at NoMemory 0 }
{
    match why {
        ScriptFaultKind::NoMemory => ScriptFault { why, line: 0 },
        _ => ScriptFault { why, line },
    }
}

/// Returns the commands of a script, for a station with `lines` lines and a layout with `nodes`
/// nodes, at most 64.
///
/// A line of the script is `line L HH HH ..`, one or more bytes on line L; `turn N`, N turns;
/// `turn N miss I I ..`, N turns that the one or more named nodes miss; or `show`. Lines without
/// words and lines that begin with `#` are ignored. The first fault is reported: a text longer than
/// [`LONGEST_TEXT`], then each word from left to right, where a missing word is reported at the end
/// of its line.
// A separate call, so that its loops keep their values in registers.
#[inline(never)]
pub fn read_script(
    alloc: Global,
    text: &[u8],
    lines: u8,
    nodes: u8,
) -> Result<Vec<Command>, ScriptFault>
    requires { nodes ≤ 64 }
    // The commands are those of the text.
    ensures commands { IfOk result (λ v. script_of lines nodes text.now ≡ Ok v.items) }
    // The fault is the first of the text, unless memory ran out.
    ensures fault { IfErr result (λ e. e.why ≢ NoMemory → script_of lines nodes text.now ≡ Err e) }
    ensures memory { IfErr result (λ e. e.why ≡ NoMemory → e.line ≡ 0) }
    ensures lines { IfOk result (λ v. AreOnLines lines v.items) }
    ensures counts { IfOk result (λ v. AreCounted v.items) }
{
    if text.len() > LONGEST_TEXT {
        return Err(fault_at(ScriptFaultKind::TooLong, 0));
    }
    let mut commands = Vec::new(alloc);
    let mut number = 0u64;
    for line in Lines(text) {
        number += 1;
        if let Err(why) = push_line_commands(line, lines, nodes, &mut commands) {
            return Err(fault_at(why, number));
        }
    }
    Ok(commands)
}

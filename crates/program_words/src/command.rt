//! What the words ask.

ghost use Rattle.std.specs.Prelude.{◌≡◌, IfOk, map, string_bytes};
ghost use Rattle.std.specs.List.{list_any};
ghost use Rattle.std.specs.Option.{option_and_then, option_map};
ghost use Rattle.zb_ids.specs.Hex.{number_at};
ghost use Rattle.program_words.specs.Words.{command_of, gen_command, is_dashed, is_path, long_command, named_command, number_word, object_command, pack_command, serve_command, text_command, word_command};

use crate::entering::named;
use itoa::Buffer;
use std::alloc::{AllocError, Global};
use zb_ids::{Oid, Stamp, Tid, read_hex, tid_of_stamp};

/// What is asked of the file, beside running a script.
#[derive(Clone, Copy, Debug, PartialEq, Eq)]
pub enum Asked {
    /// The transactions that no pack has gone over, the newest first.
    UndoLog,
    /// The changes of an object, the newest first.
    History {
        /// The object.
        oid: Oid,
    },
    /// The last state of an object.
    Show {
        /// The object.
        oid: Oid,
    },
    /// The digest of an object's last record.
    Digest {
        /// The object.
        oid: Oid,
    },
    /// Whether the tree with this root is sound.
    Check {
        /// The root.
        oid: Oid,
    },
}

/// A pack of the file's list.
#[derive(Clone, Copy, Debug, PartialEq, Eq)]
pub struct PackRequest {
    /// Up to this tid, which is that of a stamp.
    pub tid: Tid,
    /// Whether objects that nothing leads to go too: where `nogc` doesn't stand.
    pub collect: bool,
}

/// Links that are to be served.
#[derive(Clone, Copy, Debug, PartialEq, Eq)]
pub struct ServeRequest {
    /// The port at which they come in. At 0 the host picks one.
    pub port: u16,
    /// How many: 1 to 64.
    pub count: u16,
}

/// What the words ask.
#[derive(Clone, Copy, Debug, PartialEq, Eq)]
pub enum Command {
    /// The script that the source has is to be run.
    Run,
    /// Something is asked of the file.
    Ask(Asked),
    /// The file's list is to be packed.
    Pack(
        /// How.
        PackRequest,
    ),
    /// The file's index file is to be written.
    Index,
    /// The script that the source has is to be run, with the lines of its clients side by side.
    Play,
    /// Links are to be accepted and served.
    Serve(
        /// Which.
        ServeRequest,
    ),
    /// The script that is made of a number is to be run, and what its replies come to is told.
    Gen {
        /// The number, and how many rounds the script has: 1 to 8,000.
        rounds: u64,
    },
}

/// Whether a word is a path: it isn't empty and doesn't begin with a dash.
fn is_path(word: &str) -> bool
    ensures { result ≡ is_path word.now }
{
    match word.as_bytes() {
        [] => false,
        [first, ..] => *first != b'-',
    }
}

/// Whether a word begins with a dash.
fn is_dashed(word: &str) -> bool
    ensures { result ≡ is_dashed word.now }
{
    match word.as_bytes() {
        [] => false,
        [first, ..] => *first == b'-',
    }
}

/// Whether one of the words does.
fn has_dash(words: &[String]) -> bool
    ensures { result ≡ list_any (λ word. is_dashed (string_bytes word)) words.now }
{
    words.iter().any(|word| is_dashed(word.as_str()))
}

/// What a word asks that stands alone behind the path.
fn word_command(word: &str) -> Option<Command>
    ensures { result ≡ word_command word.now }
{
    if word == "run" {
        return Some(Command::Run);
    }
    if word == "undolog" {
        return Some(Command::Ask(Asked::UndoLog));
    }
    if word == "index" {
        return Some(Command::Index);
    }
    if word == "play" {
        return Some(Command::Play);
    }
    None
}

/// What a word asks of an object.
fn object_command(word: &str, oid: Oid) -> Option<Command>
    ensures { result ≡ object_command word.now oid }
{
    if word == "history" {
        return Some(Command::Ask(Asked::History { oid }));
    }
    if word == "show" {
        return Some(Command::Ask(Asked::Show { oid }));
    }
    if word == "digest" {
        return Some(Command::Ask(Asked::Digest { oid }));
    }
    if word == "check" {
        return Some(Command::Ask(Asked::Check { oid }));
    }
    None
}

/// What a word asks of the object that digits name.
#[tactic(auto, using(crate::proofs::Digits::digits_read, crate::proofs::Digits::no_digits))]
fn digits_command(word: &str, digits: &str) -> Option<Command>
    ensures { result ≡ option_and_then (object_command word.now) (number_at digits.now) }
{
    match read_hex(digits.as_bytes()) {
        Ok(oid) => object_command(word, Oid(oid)),
        Err(_) => None,
    }
}

/// A pack up to a stamp, and whether it collects.
#[tactic(auto, using(crate::proofs::Digits::stamp_read, crate::proofs::Digits::no_stamp))]
fn pack_command(stamp: &str, collect: bool) -> Option<Command>
    ensures { result ≡ pack_command stamp.now collect }
{
    match Stamp::read(stamp) {
        Ok(stamp) => Some(Command::Pack(PackRequest {
            tid: tid_of_stamp(stamp),
            collect,
        })),
        Err(_) => None,
    }
}

/// The number below 2^16 that a word spells in decimal, without a sign and without zeros in front.
#[tactic(auto, using(crate::proofs::Numbers::no_number))]
fn number_word(word: &str) -> Option<u16>
    ensures { result ≡ number_word word.now }
{
    let Ok(number) = word.parse::<u16>() else {
        return None;
    };
    let mut buffer = Buffer::new();
    if buffer.format(number) != word {
        return None;
    }
    Some(number)
}

/// So many links at a port.
#[tactic(auto, using(crate::proofs::Numbers::no_port, crate::proofs::Numbers::no_count, crate::proofs::Numbers::count_refused, crate::proofs::Numbers::serve_taken))]
fn serve_command(port: &str, count: &str) -> Option<Command>
    ensures { result ≡ serve_command port.now count.now }
{
    let Some(port) = number_word(port) else {
        return None;
    };
    let Some(count) = number_word(count) else {
        return None;
    };
    if count == 0 || count > 64 {
        return None;
    }
    Some(Command::Serve(ServeRequest { port, count }))
}

/// The script of so many rounds.
#[tactic(auto, using(crate::proofs::Numbers::no_rounds, crate::proofs::Numbers::rounds_refused, crate::proofs::Numbers::rounds_taken))]
fn gen_command(rounds: &str) -> Option<Command>
    ensures { result ≡ gen_command rounds.now }
{
    let Some(rounds) = number_word(rounds) else {
        return None;
    };
    if rounds == 0 || rounds > 8_000 {
        return None;
    }
    Some(Command::Gen {
        rounds: u64::from(rounds),
    })
}

/// What a name asks with the word at its position.
fn text_command(word: &str, text: &str) -> Option<Command>
    ensures { result ≡ text_command word.now text.now }
{
    if word == "pack" {
        return pack_command(text, true);
    }
    if word == "gen" {
        return gen_command(text);
    }
    digits_command(word, text)
}

/// What a name asks with a second word.
fn long_command(word: &str, text: &str, more: &str) -> Option<Command>
    ensures { result ≡ long_command word.now text.now more.now }
{
    if word == "pack" && more == "nogc" {
        return pack_command(text, false);
    }
    if word == "serve" {
        return serve_command(text, more);
    }
    None
}

/// What a name asks, with the words at its positions, where they are there.
fn named_command(word: &str, text: Option<&str>, more: Option<&str>) -> Option<Command>
    ensures { result ≡ named_command word.now (option_map (λ s. s.now) text.entry) (option_map (λ s. s.now) more.entry) }
{
    match (text, more) {
        (Some(text), Some(more)) => long_command(word, text, more),
        (Some(text), None) => text_command(word, text),
        (None, _) => word_command(word),
    }
}

/// What the words behind the program's name ask, if they are a command. The one error is want of memory.
#[tactic(auto, using(crate::proofs::Dashes::no_dash, crate::proofs::Dashes::no_words, crate::proofs::Dashes::no_path_first, crate::proofs::Dashes::dashed_rest, crate::proofs::Dashes::named_rest, crate::proofs::Dashes::name_some))]
pub fn command_of(alloc: Global, words: &[String]) -> Result<Option<Command>, AllocError>
    ensures { IfOk result (λ command. command ≡ command_of (map string_bytes words.now)) }
{
    let Some((path, rest)) = words.split_first() else {
        return Ok(None);
    };
    if !is_path(path.as_str()) {
        return Ok(None);
    }
    if has_dash(rest) {
        return Ok(None);
    }
    match named(alloc, rest)? {
        Some((word, text, more)) => Ok(named_command(word, text, more)),
        None => Ok(None),
    }
}

// One line of a script.
ghost use Rattle.std.specs.Prelude.{◌≡◌, ℕ, ◌^◌, ◌<◌, List, ◌++◌, decimal};
ghost use Rattle.std.specs.Option.{option_copied};
ghost use Rattle.blsm_model.specs.declared.key.Key.{Key};
ghost use Rattle.blsm_model.specs.declared.op.Op.TheVariants.{Release};
ghost use Rattle.blsm_model.specs.declared.row.Value.{Value};
ghost use Rattle.blsm_model.specs.Printed.{and_number, and_value, and_word, command_text, spelled};
ghost use Rattle.script_text.specs.Grammar.{IsCommand, IsKey, IsLine, IsTail, IsText};
ghost use Rattle.script_text.specs.Reading.{IsJoined, Reads, Spells, SpellsArguments, verb_text};
ghost use Rattle.text_io.specs.Lines.{Lacks};

use crate::piece::COMMAND;
use crate::read_word::{read_count, read_key, read_number, read_seat, read_tail, read_text};
use blsm_model::{Key, Line, Op, RowList, Text, Value};

/// How many bytes the longest line has, without its end: the caller's number, and the longest command.
pub const LONGEST_LINE: usize = 2 + 1 + COMMAND;

// How many turns of merging a line may ask for.
const MOST_TURNS: u32 = 100_000;

// How many rows a line may ask for.
const MOST_ROWS: u32 = RowList::MAX_LEN as u32;

/// The front before the first such byte, and the rest behind it, if there is such a byte.
pub fn cut(bytes: &[u8], mark: u8) -> (&[u8], Option<&[u8]>)
    ensures front { Lacks mark result.0.now }
    ensures whole { IsJoined mark bytes.now result.0.now (option_copied result.1) }
{
    match bytes.iter().position(|byte| *byte == mark) {
        Some(at) => (&bytes[..at], Some(&bytes[at + 1..])),
        None => (bytes, None),
    }
}

fn read_value(bytes: &[u8]) -> Option<Value>
    ensures { Reads (Spells (λ (v : Value). decimal v.count ++ and_word (spelled v.text)) (λ v. (v.count < 2 ^ 64) × IsText v.text)) bytes.now result }
{
    let (number, rest) = cut(bytes, b' ');
    let text = rest?;
    let count = read_number(number)?;
    let text = read_text(text)?;
    Some(Value { count, text })
}

fn read_key_and_value(bytes: &[u8]) -> Option<(Key, Value)>
    ensures { Reads (Spells (λ (both : Key × Value). both.0 ++ and_value both.1) (λ both. IsKey both.0 × (both.1.count < 2 ^ 64) × IsText both.1.text)) bytes.now result }
{
    let (word, rest) = cut(bytes, b' ');
    let rest = rest?;
    let key = read_key(word)?;
    let value = read_value(rest)?;
    Some((key, value))
}

fn read_number_and_value(bytes: &[u8]) -> Option<(u64, Value)>
    ensures { Reads (Spells (λ (both : ℕ × Value). decimal both.0 ++ and_value both.1)
        (λ both. (both.0 < 2 ^ 64) × (both.1.count < 2 ^ 64) × IsText both.1.text))
        bytes.now result }
{
    let (number, rest) = cut(bytes, b' ');
    let rest = rest?;
    let count = read_number(number)?;
    let value = read_value(rest)?;
    Some((count, value))
}

// The words of a swap.
fn read_key_number_and_value(bytes: &[u8]) -> Option<(Key, u64, Value)>
    ensures { Reads (Spells (λ (all : Key × ℕ × Value). all.0 ++ and_number all.1 ++ and_value all.2)
        (λ all. IsKey all.0 × (all.1 < 2 ^ 64) × (all.2.count < 2 ^ 64) × IsText all.2.text)) bytes.now result }
{
    let (word, rest) = cut(bytes, b' ');
    let rest = rest?;
    let key = read_key(word)?;
    let (count, value) = read_number_and_value(rest)?;
    Some((key, count, value))
}

fn read_key_and_number(bytes: &[u8]) -> Option<(Key, u64)>
    ensures { Reads (Spells (λ (both : Key × ℕ). both.0 ++ and_number both.1) (λ both. IsKey both.0 × (both.1 < 2 ^ 64))) bytes.now result }
{
    let (word, rest) = cut(bytes, b' ');
    let rest = rest?;
    let key = read_key(word)?;
    let count = read_number(rest)?;
    Some((key, count))
}

fn read_key_and_tail(bytes: &[u8]) -> Option<(Key, Text)>
    ensures { Reads (Spells (λ (both : Key × List ℕ). both.0 ++ and_word both.1) (λ both. IsKey both.0 × IsTail both.1)) bytes.now result }
{
    let (word, rest) = cut(bytes, b' ');
    let rest = rest?;
    let key = read_key(word)?;
    let tail = read_tail(rest)?;
    Some((key, tail))
}

fn read_two_keys(bytes: &[u8]) -> Option<(Key, Key)>
    ensures { Reads (Spells (λ (both : Key × Key). both.0 ++ and_word both.1) (λ both. IsKey both.0 × IsKey both.1)) bytes.now result }
{
    let (word, rest) = cut(bytes, b' ');
    let rest = rest?;
    let low = read_key(word)?;
    let high = read_key(rest)?;
    Some((low, high))
}

// What a command of several words does, by the first of them.
enum Verb {
    Put,
    Add,
    Tail,
    Del,
    New,
    Swap,
    Get,
    Hold,
    Next,
    Work,
}

fn read_verb(word: &[u8]) -> Option<Verb>
    ensures { Reads (λ bytes v. bytes ≡ verb_text v) word.now result }
{
    match word {
        b"put" => Some(Verb::Put),
        b"add" => Some(Verb::Add),
        b"tail" => Some(Verb::Tail),
        b"del" => Some(Verb::Del),
        b"new" => Some(Verb::New),
        b"swap" => Some(Verb::Swap),
        b"get" => Some(Verb::Get),
        b"hold" => Some(Verb::Hold),
        b"next" => Some(Verb::Next),
        b"work" => Some(Verb::Work),
        _ => None,
    }
}

// The command that is a word alone.
fn read_bare(word: &[u8]) -> Option<Op>
    ensures { Reads (Spells command_text (λ op. op ≡ Release)) word.now result }
{
    match word {
        b"drop" => Some(Op::Release),
        _ => None,
    }
}

// The command behind its first word.
fn read_arguments(verb: Verb, bytes: &[u8]) -> Option<Op>
    ensures { Reads (SpellsArguments verb) bytes.now result }
{
    match verb {
        Verb::Put => {
            let (key, value) = read_key_and_value(bytes)?;
            Some(Op::Put(key, value))
        }
        Verb::Add => {
            let (key, count) = read_key_and_number(bytes)?;
            Some(Op::Add(key, count))
        }
        Verb::Tail => {
            let (key, tail) = read_key_and_tail(bytes)?;
            Some(Op::Tail(key, tail))
        }
        Verb::Del => Some(Op::Del(read_key(bytes)?)),
        Verb::New => {
            let (key, value) = read_key_and_value(bytes)?;
            Some(Op::New(key, value))
        }
        Verb::Swap => {
            let (key, count, value) = read_key_number_and_value(bytes)?;
            Some(Op::Swap(key, count, value))
        }
        Verb::Get => Some(Op::Get(read_key(bytes)?)),
        Verb::Hold => {
            let (low, high) = read_two_keys(bytes)?;
            Some(Op::Hold(low, high))
        }
        Verb::Next => Some(Op::Next(read_count(bytes, MOST_ROWS)?)),
        Verb::Work => Some(Op::Work(read_count(bytes, MOST_TURNS)?)),
    }
}

/// The command that the bytes spell, if they spell one. It takes no memory.
pub fn read_command(bytes: &[u8]) -> Option<Op>
    ensures { Reads (Spells command_text IsCommand) bytes.now result }
{
    let (word, rest) = cut(bytes, b' ');
    match rest {
        Some(rest) => read_arguments(read_verb(word)?, rest),
        None => read_bare(word),
    }
}

/// The line that the bytes spell, without its end, if they spell one. It takes no memory.
pub fn read_line(bytes: &[u8]) -> Option<Line>
    ensures { Reads IsLine bytes.now result }
{
    let (caller, rest) = cut(bytes, b' ');
    let rest = rest?;
    let seat = read_seat(caller)?;
    let op = read_command(rest)?;
    Some(Line { seat, op })
}

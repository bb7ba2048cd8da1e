// A script that is made from a seed.
ghost use Rattle.std.specs.Prelude.{◌≡◌, ℕ, ◌<◌, ◌≤◌, ◌++◌, ◌∷◌, [], IfOk, List, length, vec_capacity};
ghost use Rattle.std.specs.List.{All};
ghost use Rattle.blsm_model.specs.declared.history.Entry.{Entry};
ghost use Rattle.blsm_model.specs.declared.history.Line.{Line};
ghost use Rattle.blsm_model.specs.declared.op.Op.TheVariants.{Put};
ghost use Rattle.blsm_model.specs.Format.{most_lines};
ghost use Rattle.blsm_model.specs.Histories.{writes_of};
ghost use Rattle.blsm_model.specs.Legal.{total_weight};
ghost use Rattle.blsm_model.specs.Scripts.{IsOfScript};
ghost use Rattle.script_text.specs.Generated.{HasMadeKeys, after_command, digit_at, drawn, generated, heaviest_made, key_at, longest_made, next_state, op_from, op_of, text_at};

use crate::script::Script;
use blsm_model::{Key, Line, Op, Text, Value};
use refusal::NoMemory;
use std::alloc::Global;

// A linear congruential generator, with Knuth's numbers for 64 bits.
const MULTIPLIER: u64 = 6_364_136_223_846_793_005;

const INCREMENT: u64 = 1_442_695_040_888_963_407;

// How many of the state's low bits are not drawn.
const HIDDEN_BITS: u32 = 33;

/// How many keys a script that is made may have.
pub const MADE_KEYS: u32 = 1_500;

// A text has 160 bytes at least, and so many at most.
const MOST_TEXT: usize = 199;

// The state from which the next number is drawn.
#[derive(Drop)]
struct Generator {
    state: u64,
}

impl Generator {
    fn draw(&mut self) -> u64
        ensures state { self.new.state ≡ next_state self.old.state }
        ensures number { result ≡ drawn self.new.state }
    {
        self.state = self.state.wrapping_mul(MULTIPLIER).wrapping_add(INCREMENT);
        self.state >> HIDDEN_BITS
    }

    // Puts the next command's line at the end. Four numbers are drawn for it, whether it has use for them or not.
    fn push_line(&mut self, lines: &mut Vec<Line>)
        requires { length lines.old.items < vec_capacity lines.old }
        ensures lines { lines.new.items ≡ lines.old.items ++ record { seat = 0; op = op_from self.old.state } ∷ [] }
        ensures capacity { vec_capacity lines.new ≡ vec_capacity lines.old }
        ensures state { self.new.state ≡ after_command self.old.state }
    {
        let kind = self.draw() % 100;
        let place = self.draw() % u64::from(MADE_KEYS);
        let count = self.draw() % 1000;
        let size = 160 + self.draw() % 40;
        push_op(lines, kind, place, count, size as usize);
    }
}

// Puts the line of a command at the end. Each kind puts its own: a command that might be of any kind is moved whole.
#[tactic(auto, unfolding(crate::specs::Generated::op_of))]
fn push_op(lines: &mut Vec<Line>, kind: u64, place: u64, count: u64, size: usize)
    requires size { size ≤ longest_made }
    requires room { length lines.old.items < vec_capacity lines.old }
    ensures lines { lines.new.items ≡ lines.old.items ++ record { seat = 0; op = op_of kind place count size } ∷ [] }
    ensures capacity { vec_capacity lines.new ≡ vec_capacity lines.old }
{
    let key = make_key(place);
    match kind {
        0..=59 => push_put(lines, key, count, place, size),
        60..=77 => push(lines, Op::Add(key, count)),
        78..=79 => push(lines, Op::Del(key)),
        _ => push(lines, Op::Get(key)),
    }
}

// Puts the line of a put at the end. It stays a call, as a function zeroes all its locals at entry, and no other command has a text.
#[inline(never)]
fn push_put(lines: &mut Vec<Line>, key: Key, count: u64, place: u64, size: usize)
    requires size { size ≤ longest_made }
    requires room { length lines.old.items < vec_capacity lines.old }
    ensures lines { lines.new.items ≡ lines.old.items ++ record { seat = 0; op = Put key (record { count = count; text = text_at place size }) } ∷ [] }
    ensures capacity { vec_capacity lines.new ≡ vec_capacity lines.old }
{
    let mut text = Text::empty();
    fill_text(&mut text, place, size);
    push(lines, Op::Put(key, Value { count, text }));
}

// Puts a line of the first caller at the end.
#[inline(always)]
fn push(lines: &mut Vec<Line>, op: Op)
    requires { length lines.old.items < vec_capacity lines.old }
    ensures lines { lines.new.items ≡ lines.old.items ++ record { seat = 0; op = op } ∷ [] }
    ensures capacity { vec_capacity lines.new ≡ vec_capacity lines.old }
{
    lines.push_reserved(Line { seat: 0, op });
}

fn make_digit(place: u64, unit: u64) -> u8
    requires { 0 < unit }
    ensures { result ≡ digit_at unit place }
{
    b'0' + (place / unit % 10) as u8
}

#[tactic(auto, unfolding(crate::specs::Generated::key_at))]
fn make_key(place: u64) -> Key
    ensures { result ≡ key_at place }
{
    let bytes = [
        b'k',
        make_digit(place, 10_000),
        make_digit(place, 1_000),
        make_digit(place, 100),
        make_digit(place, 10),
        make_digit(place, 1),
    ];
    match Key::from_bytes(&bytes) {
        Some(key) => key,
        None => unreachable!(),
    }
}

// Makes a text the one of a place that has this size.
fn fill_text(text: &mut Text, place: u64, size: usize)
    requires { size ≤ longest_made }
    ensures { text.new ≡ text_at place size }
{
    let letter = b'a' + (place % 26) as u8;
    let bytes = [letter; MOST_TEXT];
    text.set(&bytes[..size]);
}

/// Makes the script of a seed: so many commands of the first caller, at most 65,536, on 1,500 keys. `NoMemory` where
/// memory is refused.
pub fn generate(alloc: Global, seed: u64, count: u32) -> Result<Script, NoMemory>
    requires { count ≤ most_lines }
    ensures { IfOk result (λ script. script ≡ generated seed count) }
{
    let mut generator = Generator { state: seed };
    let mut lines = Vec::with_capacity(alloc, count as usize)?;
    while lines.len() < count as usize {
        generator.push_line(&mut lines);
    }
    Ok(Script::from_lines(lines))
}

/// Does nothing, and stands for its clause: the keys of each history of a script that is made are the generator's.
pub fn made_histories()
    ensures { (seed count : ℕ) (history : List Entry) → IsOfScript (generated seed count) history → All (λ e. HasMadeKeys e.op) history }
{}

/// Does nothing, and stands for its clause: no write of a script that is made weighs more than the heaviest, by which a summary has its bound.
pub fn made_writes()
    ensures { (seed count : ℕ) → All (λ (line : Line). total_weight (writes_of line.op) ≤ heaviest_made) (generated seed count) }
{}

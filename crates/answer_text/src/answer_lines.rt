//! The lines of an answer text that have few fields, read from what is kept of them.
ghost use Rattle.std.specs.Prelude.{ℕ, ◌+◌, ◌≡◌, map};
ghost use Rattle.path_algebra.specs.Names.{name_of_text};
ghost use Rattle.text_lines.specs.Slots.{word_in};
ghost use Rattle.text_lines.specs.Takes.{Agrees};
ghost use Rattle.road_files.specs.QuestionFiles.{kind_named};
ghost use Rattle.answer_text.specs.AnswerFiles.{begins, found_line, known, none_line, pair_line, reached_line, source_line, unreached_line, value_line, vertex_line};

use crate::answers::Reached;
use crate::number_fields::{code_of, number_of};
use crate::rules::{BAD_HEADER, FIELDS, MISPLACED};
use path_algebra::AlgebraName;
use road_files::Kind;
use road_graph::Vertex;
use text_lines::{LineFault, Slot};

/// Whether the line begins with this word.
pub fn begins(slots: &[Slot], word: &[u8]) -> bool
    ensures { result ≡ begins word.now (map word_in slots.now) }
{
    match slots.first() {
        Some(slot) => slot.is_word(word),
        None => word.is_empty(),
    }
}

/// The kind that a header names.
pub fn kind_of(slot: &Slot) -> Result<Kind, LineFault>
    ensures { Agrees (known (kind_named (word_in slot.now).text)) result }
{
    match Kind::named(slot) {
        Some(kind) => Ok(kind),
        None => Err(LineFault::Broken(BAD_HEADER)),
    }
}

/// The name that a header has.
pub fn name_of(slot: &Slot) -> Result<AlgebraName, LineFault>
    ensures { Agrees (known (name_of_text (word_in slot.now).text)) result }
{
    match AlgebraName::from_text(slot.text.as_slice()) {
        Some(name) => Ok(name),
        None => Err(LineFault::Broken(BAD_HEADER)),
    }
}

/// `s SOURCE`.
#[tactic(auto, unfolding(crate::specs::AnswerFiles::source_line))]
pub fn source_in(slots: &[Slot]) -> Result<Vertex, LineFault>
    ensures { Agrees (source_line (map word_in slots.now)) result }
{
    if !begins(slots, b"s") {
        return Err(LineFault::Broken(MISPLACED));
    }
    if slots.len() != 2 {
        return Err(LineFault::Broken(FIELDS));
    }
    Ok(Vertex(number_of(&slots[1])?))
}

/// `q SOURCE TARGET`.
#[tactic(auto, unfolding(crate::specs::AnswerFiles::pair_line))]
pub fn pair_in(slots: &[Slot]) -> Result<(Vertex, Vertex), LineFault>
    ensures { Agrees (pair_line (map word_in slots.now)) result }
{
    if !begins(slots, b"q") {
        return Err(LineFault::Broken(MISPLACED));
    }
    if slots.len() != 3 {
        return Err(LineFault::Broken(FIELDS));
    }
    let source = number_of(&slots[1])?;
    let target = number_of(&slots[2])?;
    Ok((Vertex(source), Vertex(target)))
}

/// `d V CODE HOPS PARENT`, where V is the next vertex.
#[tactic(auto, unfolding(crate::specs::AnswerFiles::reached_line))]
fn reached_in(slots: &[Slot], next: u64) -> Result<Option<Reached>, LineFault>
    ensures { Agrees (reached_line next (map word_in slots.now)) result }
{
    if slots.len() != 5 {
        return Err(LineFault::Broken(FIELDS));
    }
    let vertex = number_of(&slots[1])?;
    let code = code_of(&slots[2])?;
    let hops = number_of(&slots[3])?;
    let parent = number_of(&slots[4])?;
    if u64::from(vertex) != next {
        return Err(LineFault::Broken(MISPLACED));
    }
    Ok(Some(Reached { code, hops, parent }))
}

/// `u V`, where V is the next vertex.
#[tactic(auto, unfolding(crate::specs::AnswerFiles::unreached_line))]
fn unreached_in(slots: &[Slot], next: u64) -> Result<Option<Reached>, LineFault>
    ensures { Agrees (unreached_line next (map word_in slots.now)) result }
{
    if slots.len() != 2 {
        return Err(LineFault::Broken(FIELDS));
    }
    let vertex = number_of(&slots[1])?;
    if u64::from(vertex) != next {
        return Err(LineFault::Broken(MISPLACED));
    }
    Ok(None)
}

/// The line of the next vertex.
#[tactic(auto, unfolding(crate::specs::AnswerFiles::vertex_line))]
pub fn vertex_in(slots: &[Slot], next: u64) -> Result<Option<Reached>, LineFault>
    ensures { Agrees (vertex_line next (map word_in slots.now)) result }
{
    if begins(slots, b"d") {
        return reached_in(slots, next);
    }
    if begins(slots, b"u") {
        return unreached_in(slots, next);
    }
    Err(LineFault::Broken(MISPLACED))
}

/// `d CODE HOPS`.
#[tactic(auto, unfolding(crate::specs::AnswerFiles::value_line))]
fn value_in(slots: &[Slot]) -> Result<Option<(u64, u32)>, LineFault>
    ensures { Agrees (value_line (map word_in slots.now)) result }
{
    if slots.len() != 3 {
        return Err(LineFault::Broken(FIELDS));
    }
    let code = code_of(&slots[1])?;
    let hops = number_of(&slots[2])?;
    Ok(Some((code, hops)))
}

/// `u` alone.
#[tactic(auto, unfolding(crate::specs::AnswerFiles::none_line))]
fn none_in(slots: &[Slot]) -> Result<Option<(u64, u32)>, LineFault>
    ensures { Agrees (none_line (map word_in slots.now)) result }
{
    if slots.len() != 1 {
        return Err(LineFault::Broken(FIELDS));
    }
    Ok(None)
}

/// The value of a pair, or `u` alone.
#[tactic(auto, unfolding(crate::specs::AnswerFiles::found_line))]
pub fn found_in(slots: &[Slot]) -> Result<Option<(u64, u32)>, LineFault>
    ensures { Agrees (found_line (map word_in slots.now)) result }
{
    if begins(slots, b"d") {
        return value_in(slots);
    }
    if begins(slots, b"u") {
        return none_in(slots);
    }
    Err(LineFault::Broken(MISPLACED))
}

//! Reads answer texts.
ghost use Rattle.text_lines.specs.Reads.{ReadsText};
ghost use Rattle.answer_text.specs.AnswerFiles.{answer_rules};
ghost use Rattle.answer_text.specs.AnswerData.{answer_list};

use crate::answer_parser::AnswerParser;
use crate::answers::Answers;
use std::alloc::Global;
use text_lines::{ReadFault, RoadRead, read_whole};

/// The answers of an answer text over a graph with `n` vertices. Whether they are right for the
/// graph is not checked here.
pub fn read_answers<R: RoadRead>(alloc: Global, from: &mut R, n: u32) -> Result<Answers, ReadFault>
    ensures { ReadsText (R.seen from.old) (R.seen from.new) (answer_rules n) answer_list 30
        36 result }
{
    read_whole(from, AnswerParser::new(alloc, n))
}

//! Theorems about answers, each the contract of a function that computes nothing.
ghost use Rattle.std.specs.Prelude.{◌≡◌, ℕ, ◌≤◌, ◌++◌, List, Ok, length, take};
ghost use Rattle.road_graph.specs.GraphData.{GraphData, IsGraph};
ghost use Rattle.road_files.specs.Asked.{AreQuestionsOf, Asked, Question, asked_of};
ghost use Rattle.road_files.specs.declared.questions.Questions.{Questions};
ghost use Rattle.answer_text.specs.AnswerText.{answers_text, blocks_text, header_text};
ghost use Rattle.answer_text.specs.IsAnswer.{AreAnswers, IsAnswer, IsAnswerList};
ghost use Rattle.answer_text.specs.AnswerFiles.{answer_rules};
ghost use Rattle.answer_text.specs.AnswerData.{AnswerData, AnswerList};
ghost use Rattle.answer_text.specs.Writable.{AreWritable};
ghost use Rattle.text_lines.specs.Rules.{text_read};

use path_algebra::{PathAlgebra, laws_hold};

/// A graph and questions have at most one right answer list.
#[tactic(auto, using(crate::proofs::OneAnswer::answer_list_once))]
pub fn answers_are_one<A: PathAlgebra>(algebra: A)
    ensures { (g : GraphData) (asked : Asked) (t u : AnswerList) → IsAnswerList (A.meaning algebra)
        g asked t → IsAnswerList (A.meaning algebra) g asked u → t ≡ u }
{
    laws_hold(algebra);
}

/// A question has at most one right answer.
#[tactic(auto, using(crate::proofs::OneAnswer::answer_once))]
pub fn an_answer_is_one<A: PathAlgebra>(algebra: A)
    ensures { (g : GraphData) (q : Question) (t u : AnswerData) → IsAnswer (A.meaning algebra) g q t
        → IsAnswer (A.meaning algebra) g q u → t ≡ u }
{
    laws_hold(algebra);
}

/// The header and the text of the right answers to the first questions are a prefix of the text of
/// every right answer list.
#[tactic(auto, using(crate::proofs::OneAnswer::first_answers_text))]
pub fn first_answers_begin_all<A: PathAlgebra>(algebra: A)
    ensures { (g : GraphData) (asked : Asked) (count : ℕ) (ts : List AnswerData) (all : AnswerList) → AreAnswers (A.meaning algebra) g (take count asked.questions) ts → IsAnswerList (A.meaning algebra) g asked all →
        (rest : List ℕ) × (answers_text all ≡ (header_text asked.kind (length asked.questions) (A.meaning algebra).name ++ blocks_text ts) ++ rest) }
{
    laws_hold(algebra);
}

/// A list of answers that may be written is read back unchanged, unless its text is too long.
#[tactic(auto, using(crate::proofs::ReadAgain::written_again))]
pub fn written_answers_are_read_again()
    ensures { (t : AnswerList) → AreWritable t → length (answers_text t) ≤ 4294967296 →
        text_read (answer_rules t.n) (answers_text t) ≡ Ok t }
{}

/// The text of the right answers to questions over a graph is read back as just these, unless it is
/// too long.
pub fn right_answers_are_read_again<A: PathAlgebra>(algebra: A)
    ensures { (g : GraphData) (q : Questions) (t : AnswerList) → IsGraph g → AreQuestionsOf g.vertices q → IsAnswerList (A.meaning algebra) g (asked_of q) t → length (answers_text t) ≤ 4294967296 →
        text_read (answer_rules t.n) (answers_text t) ≡ Ok t }
{
    laws_hold(algebra);
}

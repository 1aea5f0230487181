//! Theorems about the definitions: what is written is read back.
ghost use Rattle.std.specs.Prelude.{◌≡◌, ◌≢◌, ℕ, ◌≤◌, ◌++◌, List, Ok, length, Option, true, false};
ghost use Rattle.road_graph.specs.GraphData.{GraphData, IsGraph};
ghost use Rattle.text_lines.specs.Rules.{text_read};
ghost use Rattle.graph_text.specs.WrittenGraphs.{gr_text};
ghost use Rattle.road_files.specs.declared.questions.Questions.{Questions};
ghost use Rattle.road_files.specs.Asked.{asked_of, AreQuestionsOf};
ghost use Rattle.road_files.specs.BundleFiles.{bundle_rules};
ghost use Rattle.road_files.specs.QuestionFiles.{question_rules, may_be};
ghost use Rattle.road_files.specs.WrittenQuestions.{questions_text};

use crate::questions::Kind;

/// The text of questions over a graph with n vertices has the questions as its value, if the file
/// may be of their kind and the text is not too long. Only lists of sources can make it too long.
#[tactic(auto, using(crate::proofs::QuestionLaws::questions_again, crate::proofs::QuestionLaws::short_text))]
pub fn questions_read_again()
    ensures value { (n : ℕ) (only : Option Kind) (q : Questions) → n ≤ 33554432 → may_be only (asked_of q).kind ≡ true → AreQuestionsOf n q → length (questions_text (asked_of q)) ≤ 4294967296 →
        text_read (question_rules n only) (questions_text (asked_of q)) ≡ Ok (asked_of q) }
    ensures short { (n : ℕ) (q : Questions) → n ≤ 33554432 → (asked_of q).kind ≢ Kind.Multi →
        AreQuestionsOf n q → length (questions_text (asked_of q)) ≤ 4294967296 }
{}

/// The text of a graph and then that of questions over it are a bundle of both, if it is not too
/// long. Only lists of sources can make it too long.
#[tactic(auto, using(crate::proofs::BundleAgain::bundle_again, crate::proofs::BundleAgain::short_bundle))]
pub fn bundle_read_again()
    ensures value { (g : GraphData) (q : Questions) → IsGraph g → AreQuestionsOf g.vertices q → length (gr_text g ++ questions_text (asked_of q)) ≤ 4294967296 →
        text_read bundle_rules (gr_text g ++ questions_text (asked_of q)) ≡ Ok (g, asked_of q) }
    ensures short { (g : GraphData) (q : Questions) → IsGraph g → AreQuestionsOf g.vertices q →
        (asked_of q).kind ≢ Kind.Multi → length (gr_text g ++ questions_text (asked_of q)) ≤
        4294967296 }
{}

//! Theorems over answers and accounts, the contracts of functions that compute nothing.
ghost use Rattle.std.specs.Prelude.{◌≡◌, ◌+◌, ◌≤◌, ℕ, Bool, true, All};
ghost use Rattle.road_graph.specs.GraphData.{GraphData, IsGraph};
ghost use Rattle.road_files.specs.Asked.{Asked};
ghost use Rattle.answer_text.specs.AnswerData.{AnswerList};
ghost use Rattle.answer_text.specs.IsAnswer.{IsAnswerList};
ghost use Rattle.scholten_core.specs.Accounts.{count_marked};
ghost use Rattle.scholten_core.specs.BestFirst.{AreMarksOfWalkEnds};
ghost use Rattle.shard_store.specs.declared.tally.Tally.{Tally};
ghost use Rattle.station.specs.Gather.{each_shows};
ghost use Rattle.batch_run.specs.Answered.{AsksWithin};
ghost use Rattle.batch_run.specs.Reports.{IsAccount};
ghost use Rattle.batch_run.specs.Stopping.{IsEnoughFor};
ghost use Rattle.batch_settings.specs.declared.settings.Settings.{Settings};

use path_algebra::PathAlgebra;
use path_plain::best_values_exist;
use route_tree::{routes_follow_parents, trees_exist};

/// Every graph and questions have a right answer list. That they have no other is
/// `answer_text::answers_are_one`.
pub fn answers_exist<A: PathAlgebra>(algebra: A)
    ensures { (g : GraphData) → IsGraph g → (asked : Asked) → All (AsksWithin g) asked.questions →
        (told : AnswerList) × IsAnswerList (A.meaning algebra) g asked told }
{
    best_values_exist(algebra);
    trees_exist(algebra);
    routes_follow_parents(algebra);
}

/// With one shard, best first, under every algebra: each counter of an account is one, and one more
/// for each arc in which some walk with a value ends.
pub fn best_first_accounts_count_each_arc_once<A: PathAlgebra>(_algebra: A)
    ensures { (how : Settings) (g : GraphData) (source : ℕ) (tally : Tally) → how.shards ≡ 1 →
        how.best_first ≡ true → IsAccount (A.meaning _algebra) how g source tally →
        (marked : ℕ → Bool) → AreMarksOfWalkEnds (A.meaning _algebra) g source marked →
        tally ≡ each_shows (1 + count_marked g marked) }
{}

/// A limit of 17,179,869,376 turns, of which the usual one is more than fifty times as many, is
/// enough for every graph with one shard, best first.
pub fn usual_turns_are_enough()
    ensures { (how : Settings) (g : GraphData) → IsGraph g → how.width ≤ 64 →
        17179869376 ≤ how.turns → IsEnoughFor how g }
{}

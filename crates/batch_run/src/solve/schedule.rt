//! How many diffusions a batch has.
ghost use Rattle.std.specs.Prelude.{◌≡◌, ℕ};
ghost use Rattle.road_files.specs.Asked.{AreQuestionsOf, asked_of};
ghost use Rattle.batch_run.specs.Reports.{count_diffusions};

use road_files::Questions;

/// How many diffusions a batch has, one from each source of each question: none if it is answered
/// without them.
pub(crate) fn count_diffusions(questions: &Questions, undiffused: bool) -> u64
    requires { (vertices : ℕ) × AreQuestionsOf vertices questions.now }
    ensures { result ≡ count_diffusions undiffused (asked_of questions.now).questions }
{
    if undiffused {
        return 0;
    }
    let mut count = 0;
    for i in 0..questions.len() {
        count += questions.sources(i).len() as u64;
    }
    count
}

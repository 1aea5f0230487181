//! What watches a batch for a command: it writes accounts and shows progress, each if it is wanted.
ghost use Rattle.std.specs.Prelude.{◌≡◌};
ghost use Rattle.program.specs.Accounts.{account_of};
ghost use Rattle.program.specs.Progress.{all_after, left_after, shown_at};
ghost use Rattle.program.specs.Watching.{HasAccounts, IsAddedIf, Notes};

use crate::watch::accounts::write_report;
use crate::watch::progress::show_report;
use batch_run::{Progress, Watcher};
use command_files::{FileSystem, Phase};
use path_algebra::AlgebraName;
use text_lines::RoadWrite;

/// A watcher of a batch.
#[derive(Drop)]
pub(crate) struct CommandWatcher<'a, 'f, A, E, P> {
    /// The name of the batch's algebra.
    pub name: AlgebraName,
    /// Where accounts are written, if they are wanted.
    pub accounts: &'a mut Option<A>,
    /// A write to the accounts has failed, after which none is made.
    pub lost: bool,
    /// Whether progress is shown.
    pub progress: bool,
    /// How many questions there are, once this was reported.
    pub all: u32,
    /// How many messages are left until faster solvers are named.
    pub left: u64,
    /// Where progress is shown.
    pub errors: &'a mut E,
    /// What takes note of the command's phases.
    pub files: &'f P,
}

/// Adds to the accounts what a report says, and says whether they are lost.
fn add_to_accounts<A: RoadWrite>(
    accounts: &mut Option<A>,
    lost: bool,
    name: AlgebraName,
    report: &Progress,
) -> bool
    ensures { HasAccounts A.seen accounts.old accounts.new lost result
        (account_of name report.now) }
{
    if lost {
        return true;
    }
    match accounts {
        Some(to) => write_report(to, name, report).is_err(),
        None => false,
    }
}

/// How many questions there are, after a report.
fn all_after(all: u32, report: &Progress) -> u32
    ensures { result ≡ all_after all report.now }
{
    match report {
        Progress::Begun { questions, .. } => *questions,
        _ => all,
    }
}

/// How many messages are left after a report until faster solvers are named.
fn left_after(left: u64, report: &Progress) -> u64
    ensures { result ≡ left_after left report.now }
{
    match report {
        Progress::Gathered { tally, .. } => left.saturating_sub(tally.sent),
        _ => left,
    }
}

/// Shows what a report says of so many questions, with so many messages left, if that is wanted.
fn show_if_wanted<E: RoadWrite>(
    errors: &mut E,
    progress: bool,
    all: u32,
    left: u64,
    report: &Progress,
)
    ensures { IsAddedIf E.seen progress errors.old errors.new (shown_at all left report.now) }
{
    if progress {
        show_report(errors, all, left, report);
    }
}

/// Takes note that the next question is solved, once the questions were read or one was answered.
fn note_phase<P: FileSystem>(files: &P, report: &Progress) {
    match report {
        Progress::Ordered { .. } | Progress::Factored { .. } | Progress::Gathered { .. } => {}
        Progress::Begun { .. } | Progress::Answered { .. } => files.enter(Phase::Solving),
    }
}

impl<A: RoadWrite, E: RoadWrite, P: FileSystem> Watcher for CommandWatcher<'_, '_, A, E, P> {
    ghost may_become = { Notes A.seen E.seen };

    fn report(&mut self, report: Progress) {
        self.lost = add_to_accounts(self.accounts, self.lost, self.name, &report);
        show_if_wanted(self.errors, self.progress, self.all, self.left, &report);
        self.all = all_after(self.all, &report);
        self.left = left_after(self.left, &report);
        note_phase(self.files, &report);
    }
}

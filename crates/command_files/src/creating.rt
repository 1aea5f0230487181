//! The file of accounts, which is created before an input is read.
ghost use Rattle.std.specs.Prelude.{◌≡◌, ◌↔◌, IfOk, IfErr, IsSome, map};
ghost use Rattle.command_files.specs.Opening.{CannotCreate, CreatesIf, IsAmong, accounts_name};

use crate::files::FileSystem;
use crate::opening::STDIN_NAME;
use crate::refusal::Refusal;
use batch_inputs::{WRITE, fault_of_run};
use command_args::WatchOptions;

/// Standard output, by the name that the system gives it.
pub const OUTPUT_NAME: &str = "/dev/fd/1";

/// Standard error, by the name that the system gives it.
pub const ERRORS_NAME: &str = "/dev/fd/2";

/// Whether a name is that of one of other files.
#[tactic(auto, using(crate::proofs::Among::any_map, crate::proofs::Among::all_map))]
fn is_among<P: FileSystem>(files: &P, path: &str, others: &[&str]) -> bool
    ensures { IsAmong P.tells_same files.now path.now (map (λ name. name.now) others.now) result }
{
    for other in others {
        if files.is_same_file(path, other) {
            return true;
        }
    }
    false
}

/// Creates the file of accounts, if they are wanted, unless it is one of other files.
pub fn create_accounts<P: FileSystem>(
    files: &mut P,
    options: &WatchOptions<'_>,
    others: &[&str],
) -> Result<Option<P::NewFile>, Refusal>
    ensures creates { IfOk result (λ accounts. CreatesIf P.creates P.tells_same
        (map (λ name. name.now) others.now) (accounts_name options.now) files.old files.new) }
    ensures wanted { IfOk result (λ accounts. IsSome accounts ↔ IsSome options.now.accounts) }
    ensures refused { IfErr result (CannotCreate P.creates P.tells_same
        (map (λ name. name.now) others.now) (accounts_name options.now) files.old files.new) }
{
    let Some(name) = options.accounts else {
        return Ok(None);
    };
    if name == STDIN_NAME {
        return Err(Refusal::NoFile);
    }
    if is_among(files, name, others) {
        return Err(Refusal::FileTaken);
    }
    match files.create(name) {
        Ok(file) => Ok(Some(file)),
        Err(_) => Err(Refusal::Fault(fault_of_run(WRITE))),
    }
}

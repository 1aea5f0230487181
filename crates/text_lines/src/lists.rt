//! Lists that grow as lines are read.
ghost use Rattle.std.specs.Prelude.{◌≡◌, ◌++◌, ◌∷◌, [], OnOk, OnErr, IfErr};

use crate::faults::LineFault;

/// Adds an item to a list, which stays as it is if memory runs out.
pub fn push_item<T: Drop>(list: &mut Vec<T>, item: T) -> Result<(), LineFault>
    ensures ok { OnOk result (list.new.items ≡ list.old.items ++ item ∷ []) }
    ensures err { OnErr result (list.new.items ≡ list.old.items) }
    ensures memory { IfErr result (λ e. e ≡ LineFault.Memory) }
{
    match list.push(item) {
        Ok(()) => Ok(()),
        Err(_) => Err(LineFault::Memory),
    }
}

//! What open handles own: a part of a graph, which is freed with its last owner, and a stop.
ghost use Rattle.std.specs.Prelude.{◌≡◌, ◌↔◌, IfOk, IsSome, None};
ghost use Rattle.answer_lists.specs.Sharing.{unfactored};

use answer_lists::SharedGraph;
use arc_numbers::ArcNumbers;
use halting::Stop;
use road_graph::{Memory, OutGraph};
use std::alloc::{AllocError, Global};

/// What a handle owns: its part of a graph, the stop that its calls look at, if it has one, and the
/// numbers of its arcs, if they were numbered.
#[derive(Drop)]
pub(crate) struct Owner {
    pub(crate) shared: SharedGraph,
    pub(crate) stop: Option<Stop>,
    pub(crate) numbers: Option<ArcNumbers>,
}

/// An owner in a block of the heap. It has no stop and no numbers.
pub(crate) fn boxed(alloc: Global, shared: SharedGraph) -> Result<Box<Owner>, AllocError>
    ensures graph { IfOk result (λ b. b.value.shared ≡ shared) }
    ensures stop { IfOk result (λ b. b.value.stop ≡ None) }
    ensures numbers { IfOk result (λ b. b.value.numbers ≡ None) }
{
    let owner = Owner {
        shared,
        stop: None,
        numbers: None,
    };
    Ok(Box::new(alloc, owner).map_err(AllocError::from)?)
}

/// The first owner of a graph.
pub(crate) fn owned(alloc: Global, graph: OutGraph) -> Result<Box<Owner>, AllocError>
    ensures graph { IfOk result (λ b. b.value.shared ≡ unfactored graph) }
    ensures stop { IfOk result (λ b. b.value.stop ≡ None) }
    ensures numbers { IfOk result (λ b. b.value.numbers ≡ None) }
{
    let shared = SharedGraph::of(alloc, graph)?;
    boxed(alloc, shared)
}

/// One more owner of the same numbers, if there are any.
fn numbers_again(numbers: &Option<ArcNumbers>) -> Result<Option<ArcNumbers>, AllocError>
    ensures { IfOk result (λ again. again ≡ numbers.now) }
{
    match numbers {
        Some(numbers) => Ok(Some(numbers.try_clone()?)),
        None => Ok(None),
    }
}

/// One more owner of the same graph, with the same numbers. The graph by heads is made first, so
/// that both have one copy of it.
pub(crate) fn try_clone(
    alloc: Global,
    shared: &mut SharedGraph,
    numbers: &Option<ArcNumbers>,
) -> Result<Box<Owner>, Memory>
    ensures kept { shared.new ≡ shared.old }
    ensures same { IfOk result (λ b. b.value.shared ≡ shared.old) }
    ensures stop { IfOk result (λ b. b.value.stop ≡ None) }
    ensures numbers { IfOk result (λ b. b.value.numbers ≡ numbers.now) }
{
    let _by_head = shared.by_head()?;
    let numbers = numbers_again(numbers)?;
    let second = shared.try_clone()?;
    let mut owner = boxed(alloc, second)?;
    owner.numbers = numbers;
    Ok(owner)
}

/// One more owner of the same stop, if there is one.
pub(crate) fn stop_again(stop: &Option<Stop>) -> Result<Option<Stop>, AllocError>
    ensures { IfOk result (λ again. IsSome again ↔ IsSome stop.now) }
{
    match stop {
        Some(stop) => Ok(Some(stop.try_clone()?)),
        None => Ok(None),
    }
}

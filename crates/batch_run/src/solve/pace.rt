//! How the parts of a diffusion take their items.
ghost use Rattle.std.specs.Prelude.{◌≡◌};
ghost use Rattle.batch_run.specs.Cut.{ahead_of, mean_weight, order_of};

use batch_settings::Settings;
use road_graph::{ArcNo, Graph};
use shard_part::QueueOrder;

/// In which order parts take their items, and by what weight a shard may run ahead of the others,
/// if it is held back.
#[derive(Clone, Copy)]
pub(crate) struct Pace {
    pub(crate) order: QueueOrder,
    pub(crate) ahead: Option<u32>,
}

impl Pace {
    /// The pace that settings ask for. Best first, a shard may run ahead by a fifth of the mean
    /// weight of the arcs, unless they say by what weight. In order of arrival none is held back.
    pub(crate) fn of(settings: &Settings, graph: &Graph) -> Pace
        ensures order { result.order ≡ order_of settings.now }
        ensures ahead { result.ahead ≡ ahead_of settings.now graph.now }
    {
        let ahead = match settings.ahead {
            _ if !settings.best_first => None,
            Some(ahead) => Some(ahead),
            None => Some(mean_weight(graph) / 5),
        };
        Pace {
            order: queue_order(settings),
            ahead,
        }
    }
}

/// In which order a part takes its items.
fn queue_order(settings: &Settings) -> QueueOrder
    ensures { result ≡ order_of settings.now }
{
    if settings.best_first {
        QueueOrder::BestFirst
    } else {
        QueueOrder::Arrival
    }
}

/// The mean weight of the arcs; 0 if there are none.
fn mean_weight(graph: &Graph) -> u32
    ensures { result ≡ mean_weight graph.now }
{
    graph.holds();
    let mut sum = 0u64;
    for number in 0..graph.arcs() as u32 {
        sum += u64::from(graph.road(ArcNo(number + 1)).weight);
    }
    let Some(mean) = sum.checked_div(graph.arcs() as u64) else {
        return 0;
    };
    mean as u32
}

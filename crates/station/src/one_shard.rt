//! With one shard a station has all of its diffusion: theorems that a caller calls if its own proof
//! needs what they promise.
ghost use Rattle.std.specs.Prelude.{◌≡◌, ℕ, ◌<◌, false, List, [], length};
ghost use Rattle.atomic_table.specs.Seated.{TableId};
ghost use Rattle.scholten_core.specs.declared.event.Event.{Event};
ghost use Rattle.shard_store.specs.declared.queue_order.QueueOrder.TheVariants.{BestFirst};
ghost use Rattle.shard_store.specs.Setup.{SetupData};
ghost use Rattle.shard_part.specs.Opening.{opened_part};
ghost use Rattle.post_floor.specs.Data.{FloorData};
ghost use Rattle.station.specs.declared.turn.Report.{Report};
ghost use Rattle.station.specs.Opened.{station_of};
ghost use Rattle.station.specs.OneShard.{HasOneShard, turns_suffice, best_first_turns_suffice, HasAll, WentOn};
ghost use Rattle.station.specs.Station.{StationData};
ghost use Rattle.station.specs.Turn.{Turned};

use path_algebra::PathAlgebra;
use scholten_core::every_run_is_finite;
use shard_part::laws::an_item_waits_until_the_end;

/// If the plan has one shard, each turn before the end goes on: it handles as many items as its
/// budget allows, each an enabled event of the diffusion, or it reports the end. There are fewer
/// such events than `turns_suffice`, so that many turns end it. Best first, there are fewer than
/// `best_first_turns_suffice` too, a number linear in the arcs of the graph.
pub fn one_shard_goes_on<A: PathAlgebra>(algebra: A)
    ensures opened { (t : SetupData A) (id : TableId) → HasOneShard t → HasAll A.meaning t []
        (station_of id t.plan.shards (opened_part (A.meaning t.diffusion.algebra) t 0)) }
    ensures turns { (f : FloorData A) (budget : ℕ) (events : List Event)
        (before after : StationData A A.Value) (r : Report) → HasOneShard f.setup →
        HasAll A.meaning f.setup events before → before.ended ≡ false →
        Turned A.meaning f budget before r after → WentOn A.meaning f.setup budget events r after }
    ensures few { (t : SetupData A) (events : List Event) (s : StationData A A.Value) →
        t.diffusion.algebra ≡ algebra → HasOneShard t → HasAll A.meaning t events s →
        length events < turns_suffice t }
    ensures few_best_first { (t : SetupData A) (events : List Event)
        (s : StationData A A.Value) → HasOneShard t →
        t.order ≡ BestFirst → HasAll A.meaning t events s →
        length events < best_first_turns_suffice t }
{
    an_item_waits_until_the_end(algebra);
    every_run_is_finite(algebra);
}

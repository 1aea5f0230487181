//! How a group of diffusions is run, and how its workers make their turns.
use batch_settings::Dealing;

/// How a worker makes its turns.
#[derive(Drop)]
pub struct TurnSettings<'a, G> {
    /// How many items a station handles in one turn.
    pub budget: u32,
    /// How many turns each worker may make.
    pub limit: u64,
    /// Is asked before each turn.
    pub gate: &'a G,
}

/// How a group is run.
#[derive(Drop)]
pub struct GroupSettings<'a, G> {
    /// How many workers there are.
    pub workers: usize,
    /// By which rule the stations are dealt to them.
    pub dealing: Dealing,
    /// How each worker makes its turns.
    pub turns: TurnSettings<'a, G>,
}

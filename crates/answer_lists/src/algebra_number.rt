//! An algebra as a caller names it.

/// The number of an algebra, and a limit, which `within` alone takes.
#[derive(Clone, Copy)]
pub struct AlgebraNumber {
    pub algebra: u32,
    pub limit: u64,
}

/// An entry of a Knuth-Bendix order: how many arguments a symbol has, its weight and its rank.
#[derive(Clone, Copy, Debug, PartialEq, Eq)]
pub struct KboEntry {
    pub symbol: u32,
    pub arity: u8,
    pub weight: u64,
    pub rank: u64,
}

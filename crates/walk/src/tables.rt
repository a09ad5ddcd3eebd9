// The tables that the rows go into: their words, lent together.

// The five lent tables of words. What they lend stays the same: only the words change, which each function that takes them ensures,
// since a lent slice may be exchanged for another.
#[derive(Drop)]
pub struct Tables<'a> {
    pub declarations: &'a mut [u64],
    pub fields: &'a mut [u64],
    pub tags: &'a mut [u64],
    pub constraints: &'a mut [u64],
    pub comments: &'a mut [u64],
}

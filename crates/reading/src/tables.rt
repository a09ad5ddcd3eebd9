// What a reading counts: a number of rows for each table, in the order of the tables' numbers, as an array, which C is lent.
pub type Counts = [u64; 5];

// Reads a source from standard input and writes the rows of its tables: 01's program.
#![tactic(auto)]

use listing::{Wanted, print_input};

fn main() {
    print_input(Wanted::Tables);
}

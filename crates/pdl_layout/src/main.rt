// Reads a source from standard input and writes the layouts of its packets, structs and groups.
#![tactic(auto)]

use listing::{Wanted, print_input};

fn main() {
    print_input(Wanted::Layouts);
}

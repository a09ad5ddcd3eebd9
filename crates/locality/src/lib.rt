// Laws about any expression of the grammar: they stand in specs/.
#![tactic(auto)]

// The cost of an atom's items: each that is bound has its selectivity multiplied in, by its sample or by its price.
#![tactic(auto)]

pub mod items;

// What a query is planned by: its frames on a sheet, with an index of them; and behind them the rows of a table, where frame 24 asks for one.
#![tactic(auto)]

pub mod search;

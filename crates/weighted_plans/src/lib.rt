// The plan of a weighted table beside that of the table without its weights: what is promised of them, and the theorem. What planning replies and writes, the
// demands and the rules stand in plans, for tables of every form. There is no code here: weighted_planner has the call.
#![tactic(auto)]

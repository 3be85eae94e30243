// The printed plan, and what runs now and next, as bytes, and what the inputs of the two programs mean: definitions and laws. There is no code here: report
// and console have it.
#![tactic(auto)]

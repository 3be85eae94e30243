// The sample flights, P1 to P12 of document 01 and those of requests 1 to 3, and the refusals, each as one table and one theorem about the definitions.
// There is no code here.
#![tactic(auto)]

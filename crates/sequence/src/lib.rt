// Similar jobs, run one after the other, each as early as it can: the definitions of their fit, their choice and their runs, and the theorems.
// There is no code here: sequencing has it.
#![tactic(auto)]

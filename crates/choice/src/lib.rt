// Which optional parts a plan keeps: the definition, the best of all fitting lists, and its theorems. There is no code here: choosing has it.
#![tactic(auto)]

// The orders of the two kinds of tables: the definitions, and what follows from them for the runnings of a table. There is no code here: ordering has it.
#![tactic(auto)]

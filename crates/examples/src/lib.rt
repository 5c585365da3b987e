// The format's twelve marked examples (docs/FORMAT.md, 'Examples'): a table, and the theorem that the definitions give it. There is no code here.
#![tactic(auto)]

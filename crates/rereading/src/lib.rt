// What is written as a model file reads back: laws only, no code.
#![tactic(auto)]

// What the converter answers: definitions and laws only, no code. The converter itself is in `converting`.
#![tactic(auto)]

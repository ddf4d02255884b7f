// What plans earn and why floors and ceilings bracket it: definitions and laws only, no code.
#![tactic(auto)]

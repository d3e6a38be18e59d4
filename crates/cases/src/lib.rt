// Document 01's cases 1 to 11, as one list under one theorem.
#![tactic(auto)]

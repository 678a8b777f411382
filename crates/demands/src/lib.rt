// The three demands of the request and the writing of jobs, in the request's words, stated and proved. There is no code here: specs/ is what is signed, a
// record for each demand with a field for each clause, and proofs/Demands.antt has the theorems.
#![tactic(auto)]

// What follows from the definitions of the base alone: chains of tests, counting, least squares, rounding, sizes, the file's fields; the values
// against every other set of values, in fractions; a job and its file, both ways, the cut at 8,192 bytes, how long a listing can be. Laws only: the
// face is proofs/, and in specs/ what a private function may ask of a head.
#![tactic(auto)]

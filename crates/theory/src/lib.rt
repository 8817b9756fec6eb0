// The mathematics of nested tables, for any list of largest values: no code, only definitions and theorems.
//
// specs/Tables.antt says what it is for rows to be nested, to have no two neighbours alike, and to decide as a meaning does, and
// builds the one list of rows with all three, the table of the meaning. proofs/Theorems.antt shows that it has them;
// proofs/Runs.antt, how it is built from left to right. Rests on packet, for ranges and packets; the contracts of crate table
// cite both.
#![tactic(auto)]
